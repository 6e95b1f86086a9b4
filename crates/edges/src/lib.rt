// Edges of Baudot frames: which are early and which late, and reports of them.
#![tactic(auto)]

ghost use Rattle.std.specs.Prelude.{◌≡◌, true, ◌&&◌, ◌+◌, ◌-◌, ◌≤◌, ◌<◌, eqb, leb, ltb};
ghost use Rattle.alphabet.specs.Modes.{element_of};
ghost use Rattle.signal.specs.Signal.{quiet};
ghost use Rattle.edges.specs.Edges.{no_edge, no_edges, joined, is_edge, displacement, with_ms};
ghost use Rattle.edges.specs.Range.{most_edges, is_empty, is_displaced, report_in, edges_in};
ghost use Rattle.edges.specs.code.Bounds.{ReportOf};

use alphabet::Mode;
use frames::Frame;

// A report: how many edges, the sum of their displacements in ms, the smallest and the largest; negative if early.
#[repr(C)]
#[derive(Clone, Copy, Debug, PartialEq, Eq)]
pub struct Report {
    pub edges: u32,
    pub sum: i32,
    pub smallest: i32,
    pub largest: i32,
}

// The edges of the frame so far, and the level of its latest ms.
#[repr(C)]
#[derive(Clone, Copy, Debug, PartialEq, Eq)]
pub struct Edges {
    pub seen: Report,
    pub level: u8,
}

// The most edges of a report.
pub const MOST: u32 = 65_536;

// The largest displacement either way.
const MOST_DISPLACED: u32 = 11;

// A report of no edge.
pub fn no_edge() -> Report
    ensures { result ≡ no_edge }
{
    Report {
        edges: 0,
        sum: 0,
        smallest: 0,
        largest: 0,
    }
}

// The edges that wait outside a frame.
pub fn none() -> Edges
    ensures { result ≡ no_edges }
{
    Edges {
        seen: no_edge(),
        level: 0,
    }
}

// The element of a mode in ms; 0 where edges are not measured, as in the definition `element_of`.
pub fn element(mode: Mode) -> usize
    ensures { result ≡ element_of mode }
{
    match mode {
        Mode::Baudot45 => Mode::BAUDOT_45_ELEMENT as usize,
        Mode::Baudot50 => Mode::BAUDOT_50_ELEMENT as usize,
        Mode::Dtmf | Mode::Edt => 0,
    }
}

// How far an edge at a ms of a frame is late; negative if early.
fn displacement(e: usize, m: usize) -> i32
    requires le_e { 1 ≤ e }
    requires e_bound { e ≤ 22 }
    ensures { result ≡ displacement e m }
{
    let late = m % e;
    if 2 * late <= e {
        late as i32
    } else {
        late as i32 - e as i32
    }
}

// The report of all edges of two reports.
pub fn joined(a: Report, b: Report) -> Report
    requires report_of { ReportOf 1_000_000 a }
    requires report_of_2 { ReportOf 1_000_000 b }
    ensures { result ≡ joined a b }
{
    if a.edges == 0 {
        return b;
    }
    if b.edges == 0 {
        return a;
    }
    Report {
        edges: a.edges + b.edges,
        sum: a.sum + b.sum,
        smallest: a.smallest.min(b.smallest),
        largest: a.largest.max(b.largest),
    }
}

// Is a change of the level an edge? Mark is 1 and space 2: their product is 2, either way, and no other product is.
fn is_edge(before: u8, heard: u8) -> bool
    ensures { result ≡ is_edge before heard }
{
    before as u32 * heard as u32 == 2
}

// The edges of a frame with one ms more.
pub fn with_ms(e: usize, m: usize, w: Edges, heard: u8) -> Edges
    requires le_e { 1 ≤ e }
    requires e_bound { e ≤ 22 }
    requires report_of { ReportOf 999_999 w.seen }
    ensures { result ≡ with_ms e m w heard }
{
    if !is_edge(w.level, heard) {
        return Edges { level: heard, ..w };
    }
    let d = displacement(e, m);
    let edge = Report {
        edges: 1,
        sum: d,
        smallest: d,
        largest: d,
    };
    Edges {
        seen: joined(w.seen, edge),
        level: heard,
    }
}

// The ms of a frame at a place of its reader; 0 where it begins.
pub fn ms_at(place: u8) -> usize
    ensures { result ≡ place - 1 }
{
    place.saturating_sub(1) as usize
}

// No edge and all four 0? It is asked without a branch between its tests.
fn is_empty(r: Report) -> bool
    ensures { result ≡ is_empty r }
{
    (r.edges == 0) & (r.sum == 0) & (r.smallest == 0) & (r.largest == 0)
}

// Are the displacements of a report in range?
fn is_displaced(r: Report) -> bool
    requires { r.edges ≤ most_edges }
    ensures { result ≡ is_displaced r }
{
    r.smallest.unsigned_abs() <= MOST_DISPLACED
        && r.largest.unsigned_abs() <= MOST_DISPLACED
        && r.sum.unsigned_abs() <= MOST_DISPLACED * r.edges
}

// Question 1, of a report.
#[tactic(auto, unfolding(crate::specs::Range::report_in))]
pub fn report_in_range(r: Report) -> bool
    ensures { result ≡ report_in r }
{
    if r.edges == 0 {
        is_empty(r)
    } else {
        r.edges <= MOST && is_displaced(r)
    }
}

// Do no edges wait?
pub fn is_none(w: Edges) -> bool
    ensures { result ≡ (is_empty w.seen && eqb w.level quiet) }
{
    is_empty(w.seen) & (w.level == 0)
}

// Are edges that wait in a frame in range?
fn waiting_in(place: u8, w: Edges) -> bool
    requires { 2 ≤ place }
    ensures { result ≡ (report_in w.seen && ltb w.seen.edges (place - 1) && leb w.level 2) }
{
    report_in_range(w.seen) && w.seen.edges < (place - 1) as u32 && w.level <= Mode::SPACE
}

// Question 1, of the edges that wait in a station.
pub fn in_range(mode: Mode, f: Frame, w: Edges) -> bool
    ensures { result ≡ edges_in mode f w }
{
    is_none(w) || (2 <= f.place && element(mode) != 0 && waiting_in(f.place, w))
}

// Edges over many ms: those of a frame that goes on, and those of all frames that end in a code.
#![tactic(auto)]

ghost use Rattle.std.specs.Prelude.{◌≡◌, true, ◌-◌, ◌≤◌, ◌<◌, length, get_or, take};
ghost use Rattle.frames.specs.code.Bounds.{Framed, FrameOf};
ghost use Rattle.frames_runs.specs.code.Passing.{Stays};
ghost use Rattle.frames_runs.specs.code.Walking.{frame_of};
ghost use Rattle.edges.specs.Edges.{is_measured};
ghost use Rattle.edges.specs.code.Bounds.{ReportOf, EdgesOf};
ghost use Rattle.edges.specs.code.Measuring.{with_all, report_over};
ghost use Rattle.edges_runs.specs.code.Latest.{SliceOf, Goes};
ghost use Rattle.edges_runs.specs.code.Counting.{Clean, clean_digits, ended_by, NextEnd, with_code, CountOf};
ghost use Rattle.edges.specs.declared.Edges as edges;

use alphabet::Mode;
use edges::{Edges, Report};
use frames::Frame;
use frames::samples::Effect;
use frames_runs::Walk;

// Where a frame ends: its reader's place before the ms that ends it, that ms, the place behind it, and whether a code
// is found.
#[derive(Clone, Copy)]
pub struct Ended {
    pub place: u8,
    pub to: usize,
    pub next: usize,
    pub code: bool,
}

// The edges of a frame with the ms of a slice, the first of which is ms m of the frame: from one change of the level to
// the next.
pub fn with_slice(e: usize, m: usize, w: Edges, heard: &[u8]) -> Edges
    requires { SliceOf e m w heard.now }
    ensures value { result ≡ with_all e m w heard.now }
    ensures report_of { ReportOf 999_999 result.seen }
{
    let mut along = w;
    let mut i = 0;
    // Each turn goes on behind the run of a level that it passed.
    while i < heard.len() {
        let x = heard[i];
        along = edges::with_ms(e, m + i, along, x);
        i = lists::places::through_run(heard, i + 1, heard.len(), x);
    }
    along
}

// The edges that wait after some ms, by the frame's place before and after them: those of its last ms, as many as its
// place tells. An element has e ms.
pub fn latest(e: usize, before: u8, w: Edges, heard: &[u8], after: u8) -> Edges
    requires le_e { 1 ≤ e }
    requires e_bound { e ≤ 22 }
    requires report_of { ReportOf 900_000 w.seen }
    requires heard_len_bound { length heard.now ≤ 4_096 }
    ensures value { (w' : edges.Edges) → Goes e before w heard.now after w' → result ≡ w' }
    ensures report_of_2 { ReportOf 999_999 result.seen }
{
    let len = heard.len();
    if len == 0 {
        return w;
    }
    if after < 2 {
        return edges::none();
    }
    let n = edges::ms_at(after);
    if n <= len {
        return with_slice(e, 0, edges::none(), &heard[len - n..]);
    }
    with_slice(e, edges::ms_at(before), w, heard)
}

// What a sample that ends a frame, at a place of its reader and a ms of what is heard, leads to.
fn end_by(place: u8, to: usize, e: Effect) -> Ended
    ensures { result ≡ ended_by place to e }
{
    Ended {
        place,
        to,
        next: match e {
            Effect::Breaks(_) => 1,
            _ => 0,
        },
        code: matches!(e, Effect::Ends),
    }
}

// In a frame, from sample to sample up to the one that ends it.
fn frame_end(mode: Mode, heard: &[u8], w: Walk) -> Option<Ended>
    requires framed { Framed mode }
    requires frame_of { FrameOf mode (frame_of w) }
    requires le_place { 2 ≤ w.place }
    requires to_in_bounds { w.to ≤ length heard.now }
    ensures { NextEnd mode heard.now w result }
{
    let s = frames_runs::to_stop(mode, heard, w);
    let Some(e) = s.effect else {
        return None;
    };
    Some(end_by(s.walk.place as u8, s.walk.to, e))
}

// The same where edges are measured. In each call the mode is a constant, of which the compiler makes a short loop.
fn measured_end(mode: Mode, heard: &[u8], w: Walk) -> Option<Ended>
    requires mode_value { is_measured mode ≡ true }
    requires frame_of { FrameOf mode (frame_of w) }
    requires le_place { 2 ≤ w.place }
    requires to_in_bounds { w.to ≤ length heard.now }
    ensures { NextEnd mode heard.now w result }
{
    match mode {
        Mode::Baudot45 => frame_end(Mode::Baudot45, heard, w),
        Mode::Baudot50 => frame_end(Mode::Baudot50, heard, w),
        Mode::Dtmf | Mode::Edt => unreachable!(),
    }
}

// Between frames: hunting, up to a space; waiting, past the space. Runs are long here, so that eight bytes are passed
// at a time.
fn between(heard: &[u8], place: usize, i: usize) -> usize
    requires place_bound { place ≤ 1 }
    requires i_in_bounds { i ≤ length heard.now }
    ensures { Stays heard.now place i result }
{
    if place == 0 {
        lists::places::until_run(heard, i, heard.len(), 2)
    } else {
        lists::places::through_run(heard, i, heard.len(), 2)
    }
}

// The ms that ends the next frame; none if no frame ends.
fn next_end(mode: Mode, heard: &[u8], w: Walk) -> Option<Ended>
    requires mode_value { is_measured mode ≡ true }
    requires frame_of { FrameOf mode (frame_of w) }
    requires clean { Clean (frame_of w) }
    requires to_in_bounds { w.to ≤ length heard.now }
    ensures { NextEnd mode heard.now w result }
{
    let mut at = w;
    // Each turn goes on behind the level that it passed.
    while at.place < 2 {
        let k = between(heard, at.place, at.to);
        if k == heard.len() {
            return None;
        }
        at = Walk {
            place: frames_runs::place_after(at.place, heard[k]),
            digits: 0,
            to: k + 1,
        };
    }
    measured_end(mode, heard, at)
}

// The report with the edges of a frame, if it ends in a code, the ms of its stop sample included.
fn counted(e: usize, before: u8, w: Edges, heard: &[u8], p: Ended, r: Report) -> Report
    requires count_of { CountOf e w heard.now p.to r }
    requires place_bound { p.place < 255 }
    requires le_place { p.code ≡ true → 2 ≤ p.place }
    ensures { (v : edges.Edges) → Goes e before w (take p.to heard.now) p.place v
        → result ≡ with_code e p.place v (get_or heard.now p.to 0) p.code r }
{
    if p.code {
        let end = p.to + 1;
        let seen = latest(e, before, w, &heard[0..end], p.place + 1).seen;
        edges::joined(r, seen)
    } else {
        r
    }
}

// The digits of a reader: none outside a frame.
fn clean_digits(f: Frame) -> usize
    ensures { result ≡ clean_digits f }
{
    if f.place < 2 { 0 } else { f.digits as usize }
}

// A report with the edges of all frames that end in a code, from frame to frame.
pub fn measure(mode: Mode, f: Frame, w: Edges, r: Report, heard: &[u8]) -> Report
    requires frame_of { FrameOf mode f }
    requires edges_of { EdgesOf mode f w }
    requires report_of { ReportOf 70_000 r }
    requires heard_len_bound { length heard.now ≤ 4_096 }
    ensures { result ≡ report_over mode f w r heard.now }
{
    let e = edges::element(mode);
    if e == 0 {
        return r;
    }
    let mut walk = Walk {
        place: f.place as usize,
        digits: clean_digits(f),
        to: 0,
    };
    let mut report = r;
    while let Some(p) = next_end(mode, heard, walk) {
        report = counted(e, f.place, w, heard, p, report);
        walk = Walk {
            place: p.next,
            digits: 0,
            to: p.to + 1,
        };
    }
    report
}

// The report of a run: the edges that count in it, told before anything is written. What is heard before a burst and
// after it is measured frame by frame.
#![tactic(auto)]

ghost use Rattle.std.specs.Prelude.{◌≡◌, true, ◌+◌, ◌*◌, ◌≤◌, length};
ghost use Rattle.lists.specs.Lists.{all_at_most};
ghost use Rattle.alphabet.specs.Modes.{highest_level};
ghost use Rattle.edges.specs.code.Bounds.{ReportOf, EdgesOf};
ghost use Rattle.frames.specs.code.Bounds.{FrameOf};
ghost use Rattle.half_duplex.specs.Core.{mode_in};
ghost use Rattle.station.specs.Station.{station};
ghost use Rattle.station.specs.Measured.{measured, report_after};
ghost use Rattle.station.specs.Range.{in_range, measured_in};
ghost use Rattle.drift.specs.code.Moments.{free_at, burst_at, burst_ms, frame_behind, edges_behind, heard_in};

use alphabet::Mode;
use burst::rules;
use edges::{Edges, Report};
use frames::Frame;
use half_duplex::Core;

// The fewest ms of a Baudot code.
const LEAST_CODE: usize = 150;

// The first ms in which the line is free, after some silence and with so many inhibited ms to come; the length if it
// stays busy.
fn free_at(silence: u16, deaf: usize, heard: &[u8]) -> usize
    ensures { result ≡ free_at silence deaf heard.now }
{
    let mut s = silence;
    for (i, x) in heard.iter().enumerate() {
        if rules::FREE <= s {
            return i;
        }
        s = half_duplex::silence_after(rules::is_silent(i < deaf, *x), s);
    }
    heard.len()
}

// The first ms of a run that is in a burst, or the length if none is.
#[tactic(auto, unfolding(crate::specs::code::Moments::burst_at))]
fn burst_at(c: Core, heard: &[u8]) -> usize
    ensures { result ≡ burst_at c heard.now }
{
    if c.line.part != burst::IDLE {
        0
    } else if c.waiting == 0 {
        heard.len()
    } else {
        free_at(c.silence, c.inhibited as usize, heard)
    }
}

// The ms of a burst: those that are left of one on the line, or all of one that begins, the line being free.
fn burst_ms(c: Core, chars: &[u8]) -> u32
    requires chars_value { in_range (station c chars.now) ≡ true }
    requires chars_len { length chars.now ≡ 256 }
    ensures { result ≡ burst_ms c chars.now }
{
    let n = c.waiting as usize;
    let free = Core {
        silence: rules::FREE,
        ..c
    };
    preview::busy_ms(free, &chars[..n], &chars[..0])
}

// The fewest ms of a burst that characters wait for, and the inhibited ms after it.
fn least_ms(waiting: u16) -> usize
    ensures { result ≡ 150 * waiting + 300 }
{
    LEAST_CODE * waiting as usize + rules::INHIBITED as usize
}

// A frame behind so many inhibited ms, and its edges: one such ms drops both.
fn frame_behind(n: usize, f: Frame) -> Frame
    ensures { result ≡ frame_behind n f }
{
    if n == 0 { f } else { Frame::HUNTING }
}

fn edges_behind(n: usize, w: Edges) -> Edges
    ensures { result ≡ edges_behind n w }
{
    if 0 < n { edges::none() } else { w }
}

// A report with the edges of the ms from one place to another, which are heard; those right before them are inhibited.
fn heard_in(
    mode: Mode,
    f: Frame,
    w: Edges,
    r: Report,
    heard: &[u8],
    from: usize,
    to: usize,
) -> Report
    requires frame_of { FrameOf mode f }
    requires edges_of { EdgesOf mode f w }
    requires report_of { ReportOf 70_000 r }
    requires heard_len_bound { length heard.now ≤ 4_096 }
    requires to_in_bounds { to ≤ length heard.now }
    ensures { result ≡ heard_in mode f w r heard.now from to }
{
    if to <= from {
        return r;
    }
    edges_runs::measure(
        mode,
        frame_behind(from, f),
        edges_behind(from, w),
        r,
        &heard[from..to],
    )
}

// A report with the edges that count in a run: of what is heard before a burst, and of what is heard after it. Where
// the characters that wait take all ms, those of the burst are not counted.
pub fn report_after(c: Core, w: Edges, chars: &[u8], r: Report, heard: &[u8]) -> Report
    requires w_value { measured_in (measured (station c chars.now) w) ≡ true }
    requires chars_len { length chars.now ≡ 256 }
    requires report_of { ReportOf 65_536 r }
    requires heard_len_bound { length heard.now ≤ 4_096 }
    requires heard_value { all_at_most (highest_level (mode_in c)) heard.now ≡ true }
    ensures { result ≡ report_after (measured (station c chars.now) w) r heard.now }
{
    let mode = Mode::of(c.mode);
    if edges::element(mode) == 0 {
        return r;
    }
    let f = c.reader.frame;
    let len = heard.len();
    let to = burst_at(c, heard);
    let before = heard_in(mode, f, w, r, heard, c.inhibited as usize, to);
    if len <= to + least_ms(c.waiting) {
        return before;
    }
    let from = to + burst_ms(c, chars) as usize + rules::INHIBITED as usize;
    heard_in(mode, f, w, before, heard, from, len)
}

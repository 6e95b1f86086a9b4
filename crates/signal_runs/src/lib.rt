// The levels of a part, written to a slice.
#![tactic(auto)]

ghost use Rattle.std.specs.Prelude.{◌≡◌, true, ◌+◌, ◌-◌, ◌*◌, ◌/◌, ◌%◌, ◌^◌, ◌≤◌, ◌<◌, length, replicate};
ghost use Rattle.lists.specs.Tables.{tabulate};
ghost use Rattle.alphabet.specs.Modes.{alphabet_of, codes, longest};
ghost use Rattle.signal.specs.Signal.{level_of, signal};
ghost use Rattle.burst.specs.Line.{in_burst, part_ms};
ghost use Rattle.burst.specs.code.Bounds.{LineIn};
ghost use Rattle.alphabet.specs.declared.Mode.TheVariants as mode;
ghost use Rattle.signal_runs.specs.code.Levels.{even_ms, element_at, element_end, frame_of, frame_level, Run, Framed, code_level, part_level};

use alphabet::{LineCode, Mode};
use burst::OnLine;

// The ms of elements and keys, as places are counted.
pub const BAUDOT_45_ELEMENT: usize = Mode::BAUDOT_45_ELEMENT as usize;

pub const BAUDOT_50_ELEMENT: usize = Mode::BAUDOT_50_ELEMENT as usize;

pub const KEY_ON: usize = Mode::KEY_ON as usize;

pub const KEY_OFF: usize = Mode::KEY_OFF as usize;

pub const KEY: usize = Mode::KEY as usize;

pub const EDT_CODE: usize = Mode::EDT_CODE as usize;

pub const EDT_ELEMENTS: usize = Mode::EDT_ELEMENTS as usize;

// Added before a division by the elements of an EDT code, it rounds up.
const EDT_ROUND_UP: usize = EDT_ELEMENTS - 1;

// A level in each ms. The compiler makes a few stores of it where the length is a constant.
pub fn fill_ms(sent: &mut [u8], level: u8)
    ensures { sent.new ≡ replicate (length sent.old) level }
{
    sent.fill(level);
}

// A level, written by n ms at the front and n at the end, which meet or overlap.
fn fill_ends(sent: &mut [u8], n: usize, level: u8)
    requires n_in_bounds { n ≤ length sent.old }
    requires sent_bound { length sent.old ≤ 2 * n }
    ensures { sent.new ≡ replicate (length sent.old) level }
{
    fill_ms(&mut sent[..n], level);
    let last = sent.len() - n;
    fill_ms(&mut sent[last..], level);
}

// At most 64 ms of a level.
fn fill_few(sent: &mut [u8], level: u8)
    requires le_sent { 1 ≤ length sent.old }
    requires sent_bound { length sent.old ≤ 64 }
    ensures { sent.new ≡ replicate (length sent.old) level }
{
    let n = sent.len();
    if 32 <= n {
        fill_ends(sent, 32, level);
    } else if 16 <= n {
        fill_ends(sent, 16, level);
    } else if 8 <= n {
        fill_ends(sent, 8, level);
    } else if 4 <= n {
        fill_ends(sent, 4, level);
    } else if 2 <= n {
        fill_ends(sent, 2, level);
    } else {
        fill_ends(sent, 1, level);
    }
}

// A level in each ms, by chunks of 64. They overlap, since the compiler makes a call of memset of a loop over
// neighbouring bytes.
pub fn fill(sent: &mut [u8], level: u8)
    ensures { sent.new ≡ replicate (length sent.old) level }
{
    let n = sent.len();
    if n == 0 {
        return;
    }
    if n <= 64 {
        fill_few(sent, level);
        return;
    }
    let last = n - 64;
    // By index: `step_by` tests twice in each turn, and was slower.
    let mut i: usize = 0;
    while i < last {
        fill_ms(&mut sent[i..i + 64], level);
        i += 63;
    }
    fill_ms(&mut sent[last..], level);
}

// How many ms of a DTMF code from one on have its level.
#[tactic(auto, unfolding(crate::specs::code::Levels::even_ms))]
fn even_ms(at: usize) -> usize
    ensures { result ≡ even_ms at }
{
    let m = at % KEY;
    if m < KEY_ON { KEY_ON - m } else { KEY - m }
}

// The ms of a DTMF code from one on. By index: each turn goes on behind the ms that it wrote.
fn put_keys(code: LineCode, at: usize, sent: &mut [u8])
    requires code_bound { code.0 < codes (alphabet_of mode.Dtmf) }
    requires sent_in_bounds { at + length sent.old ≤ length (signal mode.Dtmf code.0) }
    ensures { sent.new ≡ tabulate (code_level mode.Dtmf code.0 at) (length sent.old) 0 }
{
    let mut i: usize = 0;
    while i < sent.len() {
        let m = at + i;
        let end = lists::places::up_to(i, even_ms(m), sent.len());
        fill(&mut sent[i..end], signal::level(Mode::Dtmf, code, m as u16));
        i = end;
    }
}

// The element of a frame to which a ms belongs. By arms: each divides by a constant.
#[tactic(auto, unfolding(crate::specs::code::Levels::element_at))]
fn element_at(mode: Mode, m: usize) -> usize
    requires { m < longest mode }
    ensures { result ≡ element_at mode m }
{
    match mode {
        Mode::Baudot45 => m / BAUDOT_45_ELEMENT,
        Mode::Baudot50 => m / BAUDOT_50_ELEMENT,
        Mode::Dtmf => m,
        Mode::Edt => EDT_ELEMENTS * m / EDT_CODE,
    }
}

// The ms behind an element.
#[tactic(auto, unfolding(crate::specs::code::Levels::element_end))]
fn element_end(mode: Mode, j: usize) -> usize
    requires { j < 16 }
    ensures { result ≡ element_end mode j }
{
    match mode {
        Mode::Baudot45 => BAUDOT_45_ELEMENT * (j + 1),
        Mode::Baudot50 => BAUDOT_50_ELEMENT * (j + 1),
        Mode::Dtmf => j + 1,
        Mode::Edt => (EDT_CODE * (j + 1) + EDT_ROUND_UP) / EDT_ELEMENTS,
    }
}

// A frame as a number.
#[tactic(auto, unfolding(crate::specs::code::Levels::frame_of))]
fn frame_of(mode: Mode, code: LineCode) -> u16
    requires { code.0 < codes (alphabet_of mode) }
    ensures { result ≡ frame_of mode code.0 }
{
    match mode {
        Mode::Baudot45 | Mode::Baudot50 => signal::baudot_frame(code),
        Mode::Dtmf => 0,
        Mode::Edt => signal::edt_frame(code),
    }
}

// The last of the elements from one on that have its level.
fn run_end(frame: u16, j: usize, level: u8) -> usize
    requires j_bound { j < 16 }
    requires level_value { level ≡ level_of (frame / 2 ^ j % 2) }
    ensures { Run frame j result }
{
    for k in j..15 {
        if signal::frame_level(frame, k as u16 + 1) != level {
            return k;
        }
    }
    15
}

// The ms of a frame from one on. By index: each turn goes on behind the elements that it wrote.
fn put_frame(mode: Mode, frame: u16, at: usize, sent: &mut [u8])
    requires framed { Framed mode }
    requires le_sent { 1 ≤ length sent.old }
    requires sent_bound { at + length sent.old ≤ longest mode }
    ensures { sent.new ≡ tabulate (frame_level mode frame at) (length sent.old) 0 }
{
    let mut j = element_at(mode, at);
    let mut i: usize = 0;
    while i < sent.len() {
        let level = signal::frame_level(frame, j as u16);
        let last = run_end(frame, j, level);
        let end = (element_end(mode, last) - at).min(sent.len());
        fill(&mut sent[i..end], level);
        i = end;
        j = last + 1;
    }
}

// The ms of a code from one on.
fn put_code(mode: Mode, code: LineCode, at: usize, sent: &mut [u8])
    requires code_bound { code.0 < codes (alphabet_of mode) }
    requires le_sent { 1 ≤ length sent.old }
    requires sent_in_bounds { at + length sent.old ≤ length (signal mode code.0) }
    ensures { sent.new ≡ tabulate (code_level mode code.0 at) (length sent.old) 0 }
{
    match mode {
        Mode::Dtmf => put_keys(code, at, sent),
        _ => put_frame(mode, frame_of(mode, code), at, sent),
    }
}

// The next ms of a part.
pub fn put(mode: Mode, l: OnLine, sent: &mut [u8])
    requires line_in { LineIn mode l }
    requires l_value { in_burst l ≡ true }
    requires le_sent { 1 ≤ length sent.old }
    requires sent_in_bounds { l.at + length sent.old ≤ length (part_ms mode l) }
    ensures { sent.new ≡ tabulate (part_level mode l) (length sent.old) 0 }
{
    if l.part == burst::PREAMBLE {
        fill(sent, Mode::MARK);
    } else {
        put_code(mode, l.code, l.at as usize, sent);
    }
}

// The stretches of a run.
#![tactic(auto)]

ghost use Rattle.std.specs.Prelude.{◌≡◌, true, false, List, ℕ, ◌+◌, ◌≤◌, ◌<◌, length, get_or};
ghost use Rattle.lists.specs.Lists.{all_at_most};
ghost use Rattle.burst.specs.Rules.{may_begin};
ghost use Rattle.burst.specs.Line.{part_ms};
ghost use Rattle.half_duplex.specs.Core.{mode_in, settled};
ghost use Rattle.burst.specs.code.Bounds.{LineIn};
ghost use Rattle.half_duplex.specs.code.Bounds.{CoreIn};
ghost use Rattle.station_stretches.specs.code.Stretches.{Free, Stretches};

use alphabet::{Char, Mode};
use burst::Loaded;
use half_duplex::Core;

// A core after a stretch of a run, the place behind it, and the place behind its words. Each stretch is lent the slices
// that it writes and no others: of a struct with all of them its contract would have to say what stays.
#[derive(Clone, Copy)]
pub struct Stretched {
    pub core: Core,
    pub at: usize,
    pub words: usize,
}

// Where the ms end in which no burst may begin.
fn free_end(waiting: u16, silence: u16, i: usize, len: usize) -> usize
    requires silence_value { may_begin waiting silence ≡ false }
    requires silence_bound { silence ≤ 300 }
    requires i_lt_len { i < len }
    ensures { Free waiting silence i len result }
{
    if waiting == 0 {
        len
    } else {
        lists::places::up_to(i, (burst::rules::FREE - silence) as usize, len)
    }
}

// One ms by itself, after what it starts with.
fn step(
    c: Core,
    l: Loaded,
    heard: &[u8],
    i: usize,
    sent: &mut [u8],
    words: &mut [u32],
    n: usize,
) -> Stretched
    requires core_in { CoreIn c }
    requires line_in { LineIn (mode_in c) l.line }
    requires i_in_bounds { i < length heard.now }
    requires i_in_bounds_2 { i < length sent.old }
    requires n_in_bounds { n < length words.old }
    ensures { (chars : List ℕ) → l ≡ settled c (get_or chars 0 0) → Stretches heard.now c chars
        sent.old words.old i n result sent.new words.new }
{
    let x = half_duplex::step(c, l, heard[i]);
    sent[i] = x.sent;
    Stretched {
        core: x.core,
        at: i + 1,
        words: reader::words::put_word(words, n, x.event),
    }
}

// The ms of a part that are left.
fn send(
    c: Core,
    mode: Mode,
    left: usize,
    heard: &[u8],
    i: usize,
    sent: &mut [u8],
    n: usize,
) -> Stretched
    requires core_in { CoreIn c }
    requires mode_value { mode ≡ mode_in c }
    requires le_left { 1 ≤ left }
    requires left_value { c.line.at + left ≡ length (part_ms (mode_in c) c.line) }
    requires i_in_bounds { i < length heard.now }
    requires heard_in_bounds { length heard.now ≤ length sent.old }
    ensures { (chars words : List ℕ) → Stretches heard.now c chars
        sent.old words i n result sent.new words }
{
    let to = lists::places::up_to(i, left, heard.len());
    let gone = to - i;
    signal_runs::put(mode, c.line, &mut sent[i..to]);
    let next = burst::front_is_next(mode.alphabet(), gone == left, c.line);
    Stretched {
        core: half_duplex_runs::sent_for(c, gone, next),
        at: to,
        words: n,
    }
}

// Sending is settled, and the ms of what is then on the line are sent; one ms if it has none.
pub fn begin(
    c: Core,
    front: Char,
    heard: &[u8],
    i: usize,
    sent: &mut [u8],
    words: &mut [u32],
    n: usize,
) -> Stretched
    requires core_in { CoreIn c }
    requires front_bound { 1 ≤ c.waiting → front.0 < 128 }
    requires i_in_bounds { i < length heard.now }
    requires heard_in_bounds { length heard.now ≤ length sent.old }
    requires n_in_bounds { n < length words.old }
    ensures { (chars : List ℕ) → get_or chars 0 0 ≡ front.0 → Stretches heard.now c chars
        sent.old words.old i n result sent.new words.new }
{
    let l = half_duplex::settle(c, front);
    let mode = Mode::of(c.mode);
    let ms = burst::part_ms(mode, l.line);
    if ms <= l.line.at {
        step(c, l, heard, i, sent, words, n)
    } else {
        send(
            half_duplex_runs::loaded(c, l),
            mode,
            (ms - l.line.at) as usize,
            heard,
            i,
            sent,
            n,
        )
    }
}

// Inhibited ms in no burst, up to one in which a burst may begin.
pub fn wait(c: Core, heard: &[u8], i: usize, sent: &mut [u8], n: usize) -> Stretched
    requires core_in { CoreIn c }
    requires part_value { c.line.part ≡ 0 }
    requires silence_value { may_begin c.waiting c.silence ≡ false }
    requires le_inhibited { 1 ≤ c.inhibited }
    requires i_in_bounds { i < length heard.now }
    requires heard_in_bounds { length heard.now ≤ length sent.old }
    ensures { (chars words : List ℕ) → Stretches heard.now c chars
        sent.old words i n result sent.new words }
{
    let free = free_end(c.waiting, c.silence, i, heard.len());
    let to = lists::places::up_to(i, c.inhibited as usize, free);
    signal_runs::fill(&mut sent[i..to], 0);
    Stretched {
        core: half_duplex_runs::deaf_for(c, to - i),
        at: to,
        words: n,
    }
}

// Ms that the receiver hears, up to one in which a burst may begin; none is above the bound.
pub fn listen(
    c: Core,
    heard: &[u8],
    bound: u8,
    i: usize,
    sent: &mut [u8],
    words: &mut [u32],
    n: usize,
) -> Stretched
    requires core_in { CoreIn c }
    requires part_value { c.line.part ≡ 0 }
    requires silence_value { may_begin c.waiting c.silence ≡ false }
    requires inhibited_value { c.inhibited ≡ 0 }
    requires heard_value { all_at_most bound heard.now ≡ true }
    requires bound_bound { bound ≤ 16 }
    requires i_in_bounds { i < length heard.now }
    requires heard_in_bounds { length heard.now ≤ length sent.old }
    requires heard_in_bounds_2 { n + length heard.now ≤ length words.old + i }
    ensures { (chars : List ℕ) → Stretches heard.now c chars sent.old
        words.old i n result sent.new words.new }
{
    let to = free_end(c.waiting, c.silence, i, heard.len());
    signal_runs::fill(&mut sent[i..to], 0);
    if half_duplex_runs::stays_idle(c.reader, bound) {
        let silence = half_duplex_runs::silence_for(c.silence, to - i);
        return Stretched {
            core: half_duplex_runs::listened(c, silence, c.reader),
            at: to,
            words: n,
        };
    }
    let h = reader_runs::hear_all(Mode::of(c.mode), c.reader, &heard[i..to], bound, words, n);
    let silence = half_duplex_runs::silence_over(c.silence, &heard[i..to], bound);
    Stretched {
        core: half_duplex_runs::listened(c, silence, h.reader),
        at: to,
        words: h.at,
    }
}

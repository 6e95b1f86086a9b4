// Reading many ms.
#![tactic(auto)]

ghost use Rattle.std.specs.Prelude.{◌≡◌, true, ◌+◌, ◌≤◌, ◌<◌, length};
ghost use Rattle.std.proofs.lemmas.List.Edits.{sets};
ghost use Rattle.lists.specs.Lists.{all_at_most};
ghost use Rattle.reader.specs.code.Bounds.{ReaderIn};
ghost use Rattle.reader.specs.Words.{reader_after, words as words_heard};
ghost use Rattle.lists.specs.code.Places.{Alike};
ghost use Rattle.alphabet.specs.declared.Mode.TheVariants as mode;
ghost use Rattle.frames.specs.code.Bounds.{Framed};
ghost use Rattle.frames_runs.specs.code.Walking.{frame_of};
ghost use Rattle.keys_runs.specs.code.Passing.{keys_of};
ghost use Rattle.reader.specs.Reader.{with_frame, with_keys};
ghost use Rattle.reader_runs.specs.code.Skipping.{Skips};

use alphabet::Mode;
use frames::Frame;
use frames_runs::Walk;
use keys::Keys;
use keys_runs::levels::{Keyed, Levels};
use reader::Reader;
use std::ops::ControlFlow;

// A reader after some ms, and the place behind their words.
#[derive(Clone, Copy)]
pub struct Heard {
    pub reader: Reader,
    pub at: usize,
}

// A reader before the next ms that is looked at.
#[derive(Clone, Copy)]
pub struct Skipped {
    pub reader: Reader,
    pub to: usize,
}

// A reader with the frame of a walk, before its ms.
fn with_walk(r: Reader, w: Walk) -> Skipped
    requires place_bound { w.place < 256 }
    requires digits_bound { w.digits < 256 }
    ensures { result ≡ record { reader = with_frame r (frame_of w); to = w.to } }
{
    let frame = Frame {
        place: w.place as u8,
        digits: w.digits as u8,
    };
    Skipped {
        reader: Reader { frame, ..r },
        to: w.to,
    }
}

// Baudot and EDT: up to a ms that may find something.
fn skip_frame(mode: Mode, r: Reader, heard: &[u8], i: usize) -> Skipped
    requires framed { Framed mode }
    requires reader_in { ReaderIn mode r }
    requires i_in_bounds { i ≤ length heard.now }
    ensures { Skips mode heard.now r i result }
{
    let mut w = Walk {
        place: r.frame.place as usize,
        digits: r.frame.digits as usize,
        to: i,
    };
    // Each turn goes on behind the level, or the start, that it passed.
    while w.to < heard.len() {
        match frames_runs::pass(mode, heard, w) {
            ControlFlow::Continue(on) => w = on,
            ControlFlow::Break(last) => return with_walk(r, last),
        }
    }
    with_walk(r, w)
}

// A reader with keys, before a ms.
fn with_keys(r: Reader, k: Keyed) -> Skipped
    ensures { result ≡ record { reader = with_keys r (keys_of k); to = k.to } }
{
    let keys = Keys {
        key: k.key,
        ms: k.ms as u8,
        needed: k.needed as u8,
    };
    Skipped {
        reader: Reader { keys, ..r },
        to: k.to,
    }
}

// DTMF: up to the ms in which a key counts.
fn skip_keys(r: Reader, levels: Levels, i: usize) -> Skipped
    requires reader_in { ReaderIn mode.Dtmf r }
    requires i_in_bounds { i ≤ length levels.heard.now }
    ensures { Skips mode.Dtmf levels.entry.heard.now r i result }
{
    let first = Keyed {
        key: r.keys.key,
        ms: r.keys.ms as usize,
        needed: r.keys.needed as usize,
        to: i,
    };
    with_keys(r, keys_runs::pass_keys(levels, first))
}

// The ms from a place on that end in nothing, as far as they are skipped.
fn skip(mode: Mode, r: Reader, levels: Levels, i: usize) -> Skipped
    requires reader_in { ReaderIn mode r }
    requires i_in_bounds { i ≤ length levels.heard.now }
    ensures { Skips mode levels.entry.heard.now r i result }
{
    match mode {
        Mode::Dtmf => skip_keys(r, levels, i),
        _ => skip_frame(mode, r, levels.heard, i),
    }
}

// A reader that is made anew, field by field, to be lent: the one that is heard with stays in registers. Where it is
// lent itself, DTMF takes a tenth more instructions.
fn anew(r: Reader) -> Reader
    ensures { result ≡ r }
{
    let f = r.frame;
    let k = r.keys;
    Reader {
        frame: Frame {
            place: f.place,
            digits: f.digits,
        },
        keys: Keys {
            key: k.key,
            ms: k.ms,
            needed: k.needed,
        },
        shift: r.shift,
        prefix: r.prefix,
    }
}

// Are all ms alike? None is above the bound. It is asked where it is of use: of quiet ms, and of keys.
fn are_alike(mode: Mode, heard: &[u8], bound: u8) -> bool
    requires { all_at_most bound heard.now ≡ true }
    ensures { result ≡ true → Alike heard.now }
{
    bound == 0 || matches!(mode, Mode::Dtmf) && lists::checks::all_at_least(heard, bound)
}

// The ms of a list, one after the other, none above the bound. `skip` is called from one place, so that it is inlined.
pub fn hear_all(
    mode: Mode,
    r: Reader,
    heard: &[u8],
    bound: u8,
    words: &mut [u32],
    at: usize,
) -> Heard
    requires reader_in { ReaderIn mode r }
    requires heard_value { all_at_most bound heard.now ≡ true }
    requires bound_bound { bound ≤ 16 }
    requires heard_in_bounds { at + length heard.now ≤ length words.old }
    ensures reader_value { result.reader ≡ reader_after mode r heard.now }
    ensures at_value { result.at ≡ at + length (words_heard mode r heard.now) }
    ensures words_after { words.new ≡ sets words.old at (words_heard mode r heard.now) }
{
    let levels = Levels {
        heard,
        alike: are_alike(mode, heard, bound),
    };
    let mut reader = r;
    let mut i: usize = 0;
    let mut n = at;
    // Each turn goes on behind the ms that `skip` left out and the one that is heard.
    loop {
        let s = skip(mode, reader, levels, i);
        if s.to == heard.len() {
            return Heard {
                reader: s.reader,
                at: n,
            };
        }
        let q = reader::hear(mode, anew(s.reader), heard[s.to]);
        n = reader::words::put_word(words, n, q.event);
        reader = q.reader;
        i = s.to + 1;
    }
}

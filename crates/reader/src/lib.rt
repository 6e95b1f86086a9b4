// The reader of a station, in each mode.
#![tactic(auto)]

ghost use Rattle.std.specs.Prelude.{◌≡◌, ◌≤◌, ◌<◌};
ghost use Rattle.alphabet.specs.Modes.{alphabet_of, frame_codes};
ghost use Rattle.baudot.specs.Reading.{shift_by};
ghost use Rattle.frames.specs.code.Bounds.{FrameOf, FoundIn};
ghost use Rattle.reader.specs.code.Outcomes.{outcome};
ghost use Rattle.reader.specs.Reader.{event_of, found_event, found_shift, key_event, prefix_after};
ghost use Rattle.reader.specs.Reader.{fresh, hear_frame, hear_key, hear, inhibited};
ghost use Rattle.keys.specs.code.Bounds.{KeysIn};
ghost use Rattle.reader.specs.code.Bounds.{ReaderIn};
ghost use Rattle.reader.specs.Range.{reader_in};

use alphabet::{Alphabet, Char, Mode, Reads};
use frames::{Cause, Found, Frame};
use keys::Keys;

pub mod words;

// What a reading ms ends in: a fault has its cause, and its ms in the frame.
#[derive(Clone, Copy)]
pub enum Event {
    Character(Char),
    Fault(Cause, u8),
    Nothing,
}

// A reader: of frames, or of keys; its shift (1 letters, 2 figures); its prefix. Hosts in C lend it with any numbers:
// so the shift is no enum, and its range is asked and no fact of the type.
#[repr(C)]
#[derive(Clone, Copy, Debug, PartialEq, Eq)]
pub struct Reader {
    pub frame: Frame,
    pub keys: Keys,
    pub shift: u8,
    pub prefix: u8,
}

#[derive(Clone, Copy)]
pub struct Reading {
    pub reader: Reader,
    pub event: Event,
}

// What a code or a key ends in, with the shift or the prefix after it.
#[derive(Clone, Copy)]
pub struct Outcome {
    pub next: u8,
    pub event: Event,
}

impl Reader {
    // A fresh reader hunts, needs no quiet, and is in letters.
    pub fn fresh() -> Reader
        ensures { result ≡ fresh }
    {
        Reader {
            frame: Frame::HUNTING,
            keys: Keys::READY,
            shift: 1,
            prefix: 0,
        }
    }
}

// What a code ends in.
impl From<Reads> for Event {
    ghost from_gives = { λ reads event. event ≡ event_of reads };

    fn from(reads: Reads) -> Event {
        match reads {
            Reads::Character(c) => Event::Character(c),
            Reads::Shift(_) => Event::Nothing,
            Reads::NoRow => Event::Fault(Cause::NoRow, 0),
        }
    }
}

// The shift after a code.
fn shift_by(shift: u8, reads: Reads) -> u8
    ensures { result ≡ shift_by shift reads }
{
    match reads {
        Reads::Shift(s) => s,
        Reads::Character(_) | Reads::NoRow => shift,
    }
}

// What was found in a frame, in a shift.
fn found_outcome(mode: Mode, shift: u8, found: Found) -> Outcome
    requires { FoundIn (frame_codes mode) found }
    ensures { result ≡ outcome (found_shift (alphabet_of mode) shift found)
        (found_event (alphabet_of mode) shift found) }
{
    match found {
        Found::Nothing => Outcome {
            next: shift,
            event: Event::Nothing,
        },
        Found::Fault(cause, ms) => Outcome {
            next: shift,
            event: Event::Fault(cause, ms),
        },
        Found::Code(k) => {
            let r = alphabet::table::reads(mode.alphabet(), shift, k);
            Outcome {
                next: shift_by(shift, r),
                event: Event::from(r),
            }
        }
    }
}

// A key that counts, behind a prefix; 0 for none.
fn key_outcome(prefix: u8, key: u8) -> Outcome
    requires { prefix ≤ 15 }
    ensures { result ≡ outcome (prefix_after prefix key) (key_event prefix key) }
{
    match key {
        0 => Outcome {
            next: prefix,
            event: Event::Nothing,
        },
        1..=10 => {
            let event = Event::from(alphabet::table::reads(
                Alphabet::Dtmf,
                1,
                alphabet::dtmf::code(prefix, key),
            ));
            Outcome { next: 0, event }
        }
        11..=12 => Outcome {
            next: alphabet::dtmf::with_mark(prefix, key),
            event: Event::Nothing,
        },
        _ => Outcome {
            next: 0,
            event: Event::Fault(Cause::LetterKey, 0),
        },
    }
}

// One ms of reading Baudot or EDT.
fn hear_frame(mode: Mode, r: Reader, heard: u8) -> Reading
    requires { FrameOf mode r.frame }
    ensures { result ≡ hear_frame mode r heard }
{
    let f = frames::frame_step(mode, r.frame, heard);
    let o = found_outcome(mode, r.shift, f.found);
    Reading {
        reader: Reader {
            frame: f.frame,
            shift: o.next,
            ..r
        },
        event: o.event,
    }
}

// One ms of reading DTMF.
fn hear_key(r: Reader, heard: u8) -> Reading
    requires keys_in { KeysIn r.keys }
    requires prefix_bound { r.prefix ≤ 15 }
    ensures { result ≡ hear_key r heard }
{
    let k = keys::key_step(r.keys, heard);
    let o = key_outcome(r.prefix, k.key);
    Reading {
        reader: Reader {
            keys: k.keys,
            prefix: o.next,
            ..r
        },
        event: o.event,
    }
}

// One ms of reading. `hear_frame` is called from one place, so that it is inlined.
pub fn hear(mode: Mode, r: Reader, heard: u8) -> Reading
    requires { ReaderIn mode r }
    ensures { result ≡ hear mode r heard }
{
    match mode {
        Mode::Dtmf => hear_key(r, heard),
        _ => hear_frame(mode, r, heard),
    }
}

// An inhibited ms.
pub fn inhibited(r: Reader) -> Reader
    requires { KeysIn r.keys }
    ensures { result ≡ inhibited r }
{
    Reader {
        frame: Frame::HUNTING,
        keys: keys::key_step(r.keys, 0).keys,
        ..r
    }
}

// Question 1, of a reader.
pub fn in_range(mode: Mode, r: Reader) -> bool
    ensures { result ≡ reader_in mode r }
{
    frames::in_range(mode, r.frame)
        && keys::in_range(r.keys)
        && 1 <= r.shift
        && r.shift <= 2
        && r.prefix <= 15
}

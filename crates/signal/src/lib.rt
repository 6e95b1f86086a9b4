// The line signal: what a code sounds like.
#![tactic(auto)]

ghost use Rattle.std.specs.Prelude.{◌≡◌, ◌+◌, ◌*◌, ◌/◌, ◌%◌, ◌^◌, ◌-◌, ◌<◌, length, get_or};
ghost use Rattle.signal.specs.Signal.{level_of, parity_of, keys_signal, signal};
ghost use Rattle.alphabet.specs.declared.Mode.TheVariants.{Dtmf};
ghost use Rattle.alphabet.specs.Dtmf.{keys_of};
ghost use Rattle.alphabet.specs.Modes.{alphabet_of, codes, longest};
ghost use Rattle.signal.specs.code.Packing.{edt_frame};

use alphabet::{LineCode, Mode};

// The level of an element of a frame, whose digits stand in a number, the first element lowest: 1 is mark, 0 space.
pub fn frame_level(frame: u16, element: u16) -> u8
    requires { element < 16 }
    ensures { result ≡ level_of (frame / 2 ^ element % 2) }
{
    let bit = (frame >> element) % 2;
    if bit == 1 { Mode::MARK } else { Mode::SPACE }
}

// The digits of a Baudot frame: start 0, the five of the code, stop 1.
pub fn baudot_frame(code: LineCode) -> u16
    requires { code.0 < 32 }
    ensures { result ≡ 192 + 2 * code.0 }
{
    192 + 2 * (code.0 as u16)
}

// The parity of seven digits: 1 if the sum of them is odd.
pub fn parity(c: u8) -> u8
    requires { c < 128 }
    ensures { result ≡ parity_of c }
{
    (c + c / 2 + c / 4 + c / 8 + c / 16 + c / 32 + c / 64) % 2
}

// The digits of an EDT frame: start 0, the seven of the code, even parity, two stops 1.
pub fn edt_frame(code: LineCode) -> u16
    requires { code.0 < 128 }
    ensures { result ≡ edt_frame code.0 }
{
    let c = code.0 as u16;
    1536 + 256 * (parity(code.0) as u16) + 2 * c
}

// The level of a DTMF code at a ms.
fn keys_level(code: LineCode, at: u16) -> u8
    requires { at < longest Dtmf }
    ensures { result ≡ get_or (keys_signal (keys_of code.0)) at 0 }
{
    if at % Mode::KEY < Mode::KEY_ON {
        alphabet::dtmf::key(code, (at / Mode::KEY) as u8)
    } else {
        0
    }
}

// The level of a code at a ms of its signal, the first ms at 0; quiet behind the end of a DTMF code.
pub fn level(mode: Mode, code: LineCode, at: u16) -> u8
    requires code_bound { code.0 < codes (alphabet_of mode) }
    requires at_bound { at < longest mode }
    ensures { result ≡ get_or (signal mode code.0) at 0 }
{
    match mode {
        Mode::Baudot45 => frame_level(baudot_frame(code), at / Mode::BAUDOT_45_ELEMENT),
        Mode::Baudot50 => frame_level(baudot_frame(code), at / Mode::BAUDOT_50_ELEMENT),
        Mode::Dtmf => keys_level(code, at),
        Mode::Edt => frame_level(edt_frame(code), Mode::EDT_ELEMENTS * at / Mode::EDT_CODE),
    }
}

// The keys of a DTMF code: its prefix and the digit.
fn key_count(code: LineCode) -> u16
    ensures { result ≡ length (keys_of code.0) }
{
    // By tests, each with a return: as a match of ranges or as one expression it takes more instructions a code.
    let prefix = code.0 / 16;
    if prefix == 0 {
        return 1;
    }
    if prefix < 3 {
        return 2;
    }
    if prefix < 7 {
        return 3;
    }
    if prefix < 15 {
        return 4;
    }
    1
}

// The ms of a code's signal.
pub fn duration(mode: Mode, code: LineCode) -> u16
    ensures { result ≡ length (signal mode code.0) }
{
    match mode {
        Mode::Baudot45 => Mode::BAUDOT_45_CODE,
        Mode::Baudot50 => Mode::BAUDOT_50_CODE,
        Mode::Dtmf => Mode::KEY * key_count(code),
        Mode::Edt => Mode::EDT_CODE,
    }
}

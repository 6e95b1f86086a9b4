// T.50 characters, line codes and modes: what a character sends, what a code reads as.
#![tactic(auto)]

ghost use Rattle.std.specs.Prelude.{◌≡◌};
ghost use Rattle.alphabet.specs.Modes.{mode_number, mode_of, preamble_of, alphabet_of, frame_codes, highest_level, longest, IsModeOf};
ghost use Rattle.alphabet.specs.code.Numbers.{last_sample};

use refusals::Refusal;

pub mod dtmf;
mod stored;
pub mod table;
pub mod text;

// A T.50 character, 00 to 7F.
#[repr(C)]
#[derive(Clone, Copy, Debug, PartialEq, Eq)]
pub struct Char(pub u8);

// A line code: a five-bit Baudot code; a DTMF code, 16 times the prefix plus the digit's key; the seven bits of an EDT
// code.
#[repr(C)]
#[derive(Clone, Copy, Debug, PartialEq, Eq)]
pub struct LineCode(pub u8);

#[derive(Clone, Copy, Debug, PartialEq, Eq)]
pub enum Alphabet {
    Baudot,
    Dtmf,
    Edt,
}

#[derive(Clone, Copy, Debug, PartialEq, Eq)]
pub enum Mode {
    Baudot45,
    Baudot50,
    Dtmf,
    Edt,
}

// The code of a character, and the shift that it is of: 1 letters, 2 figures, 3 both, as every code of DTMF and EDT.
// The shift is a number, since it is compared with those of senders and readers, which hosts in C lend.
#[derive(Clone, Copy, Debug, PartialEq, Eq)]
pub struct CharCode {
    pub shift: u8,
    pub code: LineCode,
}

// What a code reads as: a character, a shift (1 letters, 2 figures), or, without a row in the tables, nothing.
#[derive(Clone, Copy, Debug, PartialEq, Eq)]
pub enum Reads {
    Character(Char),
    Shift(u8),
    NoRow,
}

// A mode's numbers: the constants, and the methods that tell the modes apart. Times are in ms.
impl Mode {
    pub const BAUDOT_45_ELEMENT: u16 = 22;

    pub const BAUDOT_50_ELEMENT: u16 = 20;

    // A Baudot code has a start of one element, five elements, and a stop of one and a half.
    pub const BAUDOT_45_CODE: u16 = 15 * Self::BAUDOT_45_ELEMENT / 2;

    pub const BAUDOT_50_CODE: u16 = 15 * Self::BAUDOT_50_ELEMENT / 2;

    // It is sampled in the middle of each element; the stop's sample is the last.
    pub const BAUDOT_45_LAST: u8 = (13 * Self::BAUDOT_45_ELEMENT / 2) as u8;

    pub const BAUDOT_50_LAST: u8 = (13 * Self::BAUDOT_50_ELEMENT / 2) as u8;

    pub const BAUDOT_PREAMBLE: u16 = 150;

    // Five bits.
    pub const BAUDOT_CODES: u8 = 32;

    // A DTMF key, and the quiet after it.
    pub const KEY_ON: u16 = 70;

    pub const KEY_OFF: u16 = 50;

    pub const KEY: u16 = Self::KEY_ON + Self::KEY_OFF;

    // A DTMF code has at most three marks and a digit.
    pub const DTMF_CODE: u16 = 4 * Self::KEY;

    pub const LAST_KEY: u8 = 16;

    // An EDT code has eleven elements, which are no whole ms.
    pub const EDT_CODE: u16 = 100;

    pub const EDT_ELEMENTS: u16 = 11;

    pub const EDT_LAST: u8 = ((21 * Self::EDT_CODE / 2) / Self::EDT_ELEMENTS) as u8;

    pub const EDT_PREAMBLE: u16 = 300;

    // Seven bits.
    pub const EDT_CODES: u8 = 128;

    // The levels of Baudot and EDT; 0 is quiet.
    pub const MARK: u8 = 1;

    pub const SPACE: u8 = 2;

    // The mode of a number; mode 1 for a number that is no mode's. It stands beside `try_from` since it is total:
    // a state that a program has forged reads as one in mode 1.
    pub fn of(number: u8) -> Mode
        ensures { result ≡ mode_of number }
    {
        match number {
            2 => Mode::Baudot50,
            3 => Mode::Dtmf,
            4 => Mode::Edt,
            _ => Mode::Baudot45,
        }
    }

    pub fn number(self) -> u8
        ensures { result ≡ mode_number self }
    {
        match self {
            Mode::Baudot45 => 1,
            Mode::Baudot50 => 2,
            Mode::Dtmf => 3,
            Mode::Edt => 4,
        }
    }

    // The ms of mark that open a burst.
    pub fn preamble(self) -> u16
        ensures { result ≡ preamble_of self }
    {
        match self {
            Mode::Baudot45 | Mode::Baudot50 => Self::BAUDOT_PREAMBLE,
            Mode::Dtmf => 0,
            Mode::Edt => Self::EDT_PREAMBLE,
        }
    }

    pub fn alphabet(self) -> Alphabet
        ensures { result ≡ alphabet_of self }
    {
        match self {
            Mode::Baudot45 | Mode::Baudot50 => Alphabet::Baudot,
            Mode::Dtmf => Alphabet::Dtmf,
            Mode::Edt => Alphabet::Edt,
        }
    }

    // The digits of a frame are below this; DTMF has no frames.
    pub fn frame_codes(self) -> u8
        ensures { result ≡ frame_codes self }
    {
        match self {
            Mode::Baudot45 | Mode::Baudot50 => Self::BAUDOT_CODES,
            Mode::Dtmf => 1,
            Mode::Edt => Self::EDT_CODES,
        }
    }

    // The ms of its longest code.
    pub fn longest(self) -> u16
        ensures { result ≡ longest self }
    {
        match self {
            Mode::Baudot45 => Self::BAUDOT_45_CODE,
            Mode::Baudot50 => Self::BAUDOT_50_CODE,
            Mode::Dtmf => Self::DTMF_CODE,
            Mode::Edt => Self::EDT_CODE,
        }
    }

    // The ms of a frame's last sample; 0 in DTMF, which has no frames.
    pub fn last_sample(self) -> u8
        ensures { result ≡ last_sample self }
    {
        match self {
            Mode::Baudot45 => Self::BAUDOT_45_LAST,
            Mode::Baudot50 => Self::BAUDOT_50_LAST,
            Mode::Dtmf => 0,
            Mode::Edt => Self::EDT_LAST,
        }
    }

    // The highest level that is heard or sent.
    pub fn highest_level(self) -> u8
        ensures { result ≡ highest_level self }
    {
        match self {
            Mode::Baudot45 | Mode::Baudot50 | Mode::Edt => Self::SPACE,
            Mode::Dtmf => Self::LAST_KEY,
        }
    }
}

// The mode of a number, 1 to 4.
impl TryFrom<u8> for Mode {
    type Error = Refusal;

    ghost try_from_gives = { IsModeOf };

    fn try_from(number: u8) -> Result<Mode, Refusal> {
        match number {
            1 => Ok(Mode::Baudot45),
            2 => Ok(Mode::Baudot50),
            3 => Ok(Mode::Dtmf),
            4 => Ok(Mode::Edt),
            _ => Err(Refusal::Mode),
        }
    }
}

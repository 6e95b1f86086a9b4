// The sending rule of Annex A: which shift code is wanted.
ghost use Rattle.std.specs.Prelude.{◌≡◌, not, ◌≤◌, eqb};
ghost use Rattle.baudot.specs.Sending.{shift_code, differs, wanted, opened, in_range, Running};

use crate::Sender;
use alphabet::LineCode;
use alphabet::table::{FIGURES, LETTERS};

// The most characters between two shift codes.
pub const CHARACTERS_PER_SHIFT: u8 = 72;

// The code that selects a shift.
pub fn shift_code(shift: u8) -> LineCode
    ensures { result.0 ≡ shift_code shift }
{
    if shift == 2 { FIGURES } else { LETTERS }
}

// A running sender, and the shift of the code that it sends next: 1 letters, 2 figures, 3 both.
#[derive(Clone, Copy)]
pub struct NextCode {
    pub sender: Sender,
    pub own: u8,
    pub ghost running: { Running sender },
    pub ghost own_in: { (1 ≤ own) × (own ≤ 3) },
}

impl NextCode {
    // Is the code not of the shift in force? They have no bit in common then.
    fn differs(self) -> bool
        ensures { result ≡ differs self.own self.sender.shift }
    {
        self.own & self.sender.shift == 0
    }

    // Is a shift code wanted ahead of it? Both tests are made, so that a loop over a text has one branch here.
    pub fn wants_shift(self) -> bool
        ensures { result ≡ not (eqb (wanted self.sender self.own) 0) }
    {
        self.differs() | (CHARACTERS_PER_SHIFT <= self.sender.count)
    }

    // The shift in force behind what is wanted. That it is no value of an Option is for speed: with one, sending takes
    // up to a twentieth more instructions.
    pub fn shift_behind(self) -> u8
        ensures { result ≡ (opened self.sender self.own).shift }
    {
        if self.differs() {
            self.own
        } else {
            self.sender.shift
        }
    }
}

// The shift code that a running sender wants ahead of a code of the shift `own`: 1 letters, 2 figures, 0 none.
pub fn wanted(s: Sender, own: u8) -> u8
    requires running { Running s }
    requires le_own { (1 ≤ own) × (own ≤ 3) }
    ensures { result ≡ wanted s own }
{
    let next = NextCode { sender: s, own };
    if next.wants_shift() {
        next.shift_behind()
    } else {
        0
    }
}

// Question 1 of a sender.
pub fn in_range(s: Sender) -> bool
    ensures { result ≡ in_range s }
{
    s.shift <= 2 && s.count <= CHARACTERS_PER_SHIFT
}

// The samples of a frame, by their numbers: where each falls, and what it does.
ghost use Rattle.std.specs.Prelude.{◌≡◌, ◌<◌, ◌≤◌, length, get_or, cond, eqb};
ghost use Rattle.frames.specs.Samples as kind;
ghost use Rattle.frames.specs.Samples.{baudot_kinds, baudot_place, edt_kinds, samples_of};
ghost use Rattle.frames.specs.code.Samples.{baudot_number, number_at, sample_ms, kind_of, Later, Does};
ghost use Rattle.frames.specs.declared.Cause.TheVariants as cause;
ghost use Rattle.frames.specs.declared.samples.Effect.TheVariants as effect;

use crate::Cause;
use alphabet::Mode;

// What a sample does: the frame goes on with some digits; the reader hunts; the frame breaks off; its code is found.
#[derive(Clone, Copy)]
pub enum Effect {
    On(usize),
    Hunts,
    Breaks(Cause),
    Ends,
}

// A code of EDT is sampled in the middle of its elements, which are no whole ms; what is added rounds up to the next
// sample.
const CODE: usize = Mode::EDT_CODE as usize;

const ELEMENTS: usize = Mode::EDT_ELEMENTS as usize;

const HALF: usize = CODE / 2;

const UP: usize = CODE - 1 - HALF;

// The weight of a frame's last digit.
const BAUDOT_TOP: usize = Mode::BAUDOT_CODES as usize / 2;

const EDT_TOP: usize = Mode::EDT_CODES as usize / 2;

// The number of the first sample from a ms on, in a code of Baudot: one is in the middle of each element.
fn baudot_number(element: usize, m: usize) -> usize
    requires element_some { 1 ≤ element }
    requires element_bound { element < 256 }
    requires m_bound { m < 256 }
    ensures { result ≡ baudot_number element m }
{
    (m + (element - 1 - element / 2)) / element
}

// The ms of a sample in a code of Baudot.
fn baudot_ms(element: usize, j: usize) -> usize
    requires element_bound { element < 256 }
    requires j_bound { j < 256 }
    ensures { result ≡ baudot_place element j }
{
    element * j + element / 2
}

// The number of the first sample from a ms on.
pub fn number_at(mode: Mode, m: usize) -> usize
    requires { m < 256 }
    ensures { result ≡ number_at mode m }
{
    match mode {
        Mode::Baudot45 => baudot_number(Mode::BAUDOT_45_ELEMENT as usize, m),
        Mode::Baudot50 => baudot_number(Mode::BAUDOT_50_ELEMENT as usize, m),
        Mode::Dtmf => m,
        Mode::Edt => (ELEMENTS * m + UP) / CODE,
    }
}

// The ms of a sample.
pub fn sample_ms(mode: Mode, j: usize) -> usize
    requires { j < 256 }
    ensures { result ≡ sample_ms mode j }
{
    match mode {
        Mode::Baudot45 => baudot_ms(Mode::BAUDOT_45_ELEMENT as usize, j),
        Mode::Baudot50 => baudot_ms(Mode::BAUDOT_50_ELEMENT as usize, j),
        Mode::Dtmf => j,
        Mode::Edt => (CODE * j + HALF) / ELEMENTS,
    }
}

// The sample of the start.
fn start(digits: usize, heard: u8) -> Effect
    ensures { Does kind.Start digits heard result }
{
    if heard == Mode::SPACE {
        Effect::On(digits)
    } else {
        Effect::Hunts
    }
}

// A sample behind the start: the digits so far, and a level that is not quiet.
#[derive(Clone, Copy)]
struct Look {
    digits: usize,
    heard: u8,
    ghost digits_bound: { digits < 128 },
    ghost not_quiet: { heard ≡ 0 → ⊥ },
}

impl Look {
    // The sample of a digit. Mark and space are not told apart by a branch, since what comes is not foreseen.
    fn digit(self, top: usize) -> Effect
        requires { top < 128 }
        ensures { Does (kind.Digit top) self.digits self.heard result }
    {
        Effect::On(self.digits / 2 + top * (self.heard == Mode::MARK) as usize)
    }

    // The sample of the parity: 1 as mark.
    fn parity(self) -> Effect
        ensures { Does kind.Parity self.digits self.heard result }
    {
        if signal::parity(self.digits as u8) == (self.heard == Mode::MARK) as u8 {
            Effect::On(self.digits)
        } else {
            Effect::Breaks(Cause::OddParity)
        }
    }

    // The sample of a stop: what mark does there, else the frame breaks off.
    fn stop(self, mark: Effect) -> Effect
        ensures { result ≡ cond (eqb self.heard 1) mark (effect.Breaks cause.StopNotMark) }
    {
        if self.heard == Mode::MARK {
            mark
        } else {
            Effect::Breaks(Cause::StopNotMark)
        }
    }

    // A sample of Baudot.
    fn baudot(self, j: usize) -> Effect
        requires { Later 7 j }
        ensures { Does (get_or baudot_kinds j kind.None) self.digits self.heard result }
    {
        if j < 6 {
            self.digit(BAUDOT_TOP)
        } else {
            self.stop(Effect::Ends)
        }
    }

    // A sample of EDT.
    fn edt(self, j: usize) -> Effect
        requires { Later 11 j }
        ensures { Does (get_or edt_kinds j kind.None) self.digits self.heard result }
    {
        match j {
            0..=7 => self.digit(EDT_TOP),
            8 => self.parity(),
            9 => self.stop(Effect::On(self.digits)),
            _ => self.stop(Effect::Ends),
        }
    }

    // A sample of a mode's frame; DTMF has none.
    fn of(self, mode: Mode, j: usize) -> Effect
        requires { Later (length (samples_of mode)) j }
        ensures { Does (kind_of mode j) self.digits self.heard result }
    {
        match mode {
            Mode::Baudot45 | Mode::Baudot50 => self.baudot(j),
            Mode::Dtmf => Effect::Hunts,
            Mode::Edt => self.edt(j),
        }
    }
}

// What a sample of a mode's frame does.
pub fn effect_of(mode: Mode, j: usize, digits: usize, heard: u8) -> Effect
    requires j_in_bounds { j < length (samples_of mode) }
    requires digits_bound { digits < 128 }
    ensures { Does (kind_of mode j) digits heard result }
{
    if j == 0 {
        start(digits, heard)
    } else if heard == 0 {
        Effect::Breaks(Cause::Quiet)
    } else {
        let look = Look { digits, heard };
        look.of(mode, j)
    }
}

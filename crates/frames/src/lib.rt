// Reading Baudot and EDT: frames, sampled at set places.
#![tactic(auto)]

ghost use Rattle.std.specs.Prelude.{◌≡◌, ◌-◌, ◌≤◌, ◌<◌};
ghost use Rattle.frames.specs.Samples.{samples_of};
ghost use Rattle.frames.specs.Range.{frame_in};
ghost use Rattle.frames.specs.Frames.{gives, faulty, frame_step};
ghost use Rattle.frames.specs.declared.Found.TheVariants as found;
ghost use Rattle.frames.specs.code.Bounds.{FrameOf, InFrame};
ghost use Rattle.frames.specs.code.Samples.{done_by};

use crate::samples::Effect;
use alphabet::{LineCode, Mode};

pub mod samples;

// Why something that was heard gives a fault, with its number in an output word. A frame has the first three, DTMF the
// last two.
#[derive(Clone, Copy, Debug, PartialEq, Eq)]
pub enum Cause {
    Quiet = 1,
    StopNotMark,
    OddParity,
    NoRow,
    LetterKey,
}

// A reader of frames. Place 0: hunting; 1: waiting after a fault; m + 1: in a frame whose ms m is to come. The digits
// so far, the latest one at the top. Hosts in C lend it with any numbers, so its range is no fact of the type.
#[repr(C)]
#[derive(Clone, Copy, Debug, PartialEq, Eq)]
pub struct Frame {
    pub place: u8,
    pub digits: u8,
}

// What a ms of a frame ends in: a fault has its cause and its ms.
#[derive(Clone, Copy)]
pub enum Found {
    Nothing,
    Fault(Cause, u8),
    Code(LineCode),
}

#[derive(Clone, Copy)]
pub struct FrameRead {
    pub frame: Frame,
    pub found: Found,
}

const HUNTING: u8 = 0;

const WAITING: u8 = 1;

impl Frame {
    pub const HUNTING: Frame = Frame {
        place: HUNTING,
        digits: 0,
    };

    const WAITING: Frame = Frame {
        place: WAITING,
        digits: 0,
    };

    // Ms 0 of a frame was heard.
    const BEGUN: Frame = Frame {
        place: 2,
        digits: 0,
    };
}

impl FrameRead {
    // A ms that finds nothing.
    fn nothing(frame: Frame) -> FrameRead
        ensures { result ≡ gives frame found.Nothing }
    {
        FrameRead {
            frame,
            found: Found::Nothing,
        }
    }

    // One fault, and then the wait.
    fn fault(cause: Cause, ms: u8) -> FrameRead
        ensures { result ≡ faulty cause ms }
    {
        FrameRead {
            frame: Frame::WAITING,
            found: Found::Fault(cause, ms),
        }
    }
}

// What a ms of a frame ends in, by what its sample does.
fn done(e: Effect, f: Frame) -> FrameRead
    requires in_frame { InFrame f }
    requires digits_bound { (done_by e (f.place - 1) f.digits).frame.digits < 128 }
    ensures { result ≡ done_by e (f.place - 1) f.digits }
{
    match e {
        Effect::On(digits) => FrameRead::nothing(Frame {
            place: f.place + 1,
            digits: digits as u8,
        }),
        Effect::Hunts => FrameRead::nothing(Frame::HUNTING),
        Effect::Breaks(cause) => FrameRead::fault(cause, f.place - 1),
        Effect::Ends => FrameRead {
            frame: Frame::HUNTING,
            found: Found::Code(LineCode(f.digits)),
        },
    }
}

// A ms of a frame.
fn in_frame(mode: Mode, f: Frame, heard: u8) -> FrameRead
    requires frame_of { FrameOf mode f }
    requires le_place { 2 ≤ f.place }
    ensures { result ≡ frame_step (samples_of mode) f heard }
{
    let m = (f.place - 1) as usize;
    let j = samples::number_at(mode, m);
    if samples::sample_ms(mode, j) == m {
        done(samples::effect_of(mode, j, f.digits as usize, heard), f)
    } else {
        FrameRead::nothing(Frame {
            place: f.place + 1,
            ..f
        })
    }
}

// One ms of reading frames.
pub fn frame_step(mode: Mode, f: Frame, heard: u8) -> FrameRead
    requires { FrameOf mode f }
    ensures { result ≡ frame_step (samples_of mode) f heard }
{
    match f.place {
        HUNTING if heard == Mode::SPACE => FrameRead::nothing(Frame::BEGUN),
        WAITING if heard == Mode::SPACE => FrameRead::nothing(Frame::WAITING),
        HUNTING | WAITING => FrameRead::nothing(Frame::HUNTING),
        _ => in_frame(mode, f, heard),
    }
}

// Question 1, of a frame.
pub fn in_range(mode: Mode, f: Frame) -> bool
    ensures { result ≡ frame_in mode f }
{
    f.place <= mode.last_sample() + 1 && f.digits < mode.frame_codes()
}

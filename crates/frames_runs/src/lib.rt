// Frames over many ms: those that end in nothing are passed over.
#![tactic(auto)]

ghost use Rattle.std.specs.Prelude.{◌≡◌, ◌≤◌, ◌<◌, length};
ghost use Rattle.frames.specs.code.Bounds.{Framed, FrameOf};
ghost use Rattle.frames_runs.specs.code.Passing.{place_after, Stays};
ghost use Rattle.frames_runs.specs.code.Walking.{frame_of, Passed, Stops};

use alphabet::Mode;
use frames::samples::Effect;
use std::ops::ControlFlow;

// A reader of frames before a ms: its place and its digits, as wide as a loop wants them, and that ms. What a mode asks
// of it stands in the contracts: loops change a walk, and see no field by its name where one is a ghost field.
#[derive(Clone, Copy)]
pub struct Walk {
    pub place: usize,
    pub digits: usize,
    pub to: usize,
}

// Where a walk from sample to sample ends: before a sample at which the frame does not go on, with what that does; or
// with none at the end of what is heard.
#[derive(Clone, Copy)]
pub struct Stop {
    pub walk: Walk,
    pub effect: Option<Effect>,
}

// In a frame, from sample to sample, up to one at which the frame does not go on.
#[inline(always)]
pub fn to_stop(mode: Mode, heard: &[u8], w: Walk) -> Stop
    requires framed { Framed mode }
    requires frame_of { FrameOf mode (frame_of w) }
    requires le_place { 2 ≤ w.place }
    requires to_in_bounds { w.to ≤ length heard.now }
    ensures { Stops mode heard.now w result }
{
    let m = w.place - 1;
    let mut j = frames::samples::number_at(mode, m);
    let mut s = frames::samples::sample_ms(mode, j);
    let mut at = w.to + (s - m);
    let mut d = w.digits;
    // Each turn goes to the next sample, past the ms between them.
    while at < heard.len() {
        let e = frames::samples::effect_of(mode, j, d, heard[at]);
        let Effect::On(after) = e else {
            return Stop {
                walk: Walk {
                    place: s + 1,
                    digits: d,
                    to: at,
                },
                effect: Some(e),
            };
        };
        d = after;
        j += 1;
        let next = frames::samples::sample_ms(mode, j);
        at += next - s;
        s = next;
    }
    Stop {
        walk: Walk {
            place: s + 1 - (at - heard.len()),
            digits: d,
            to: heard.len(),
        },
        effect: None,
    }
}

// In a frame: up to a sample that may find something, or past a start that is not space.
fn pass_samples(mode: Mode, heard: &[u8], w: Walk) -> ControlFlow<Walk, Walk>
    requires framed { Framed mode }
    requires frame_of { FrameOf mode (frame_of w) }
    requires le_place { 2 ≤ w.place }
    requires to_in_bounds { w.to < length heard.now }
    ensures { Passed mode heard.now w result }
{
    let s = to_stop(mode, heard, w);
    match s.effect {
        Some(Effect::Hunts) => ControlFlow::Continue(Walk {
            place: 0,
            digits: 0,
            to: s.walk.to + 1,
        }),
        _ => ControlFlow::Break(s.walk),
    }
}

// The place after a ms that is hunted or waited in.
#[tactic(auto, unfolding(crate::specs::code::Passing::place_after))]
pub fn place_after(place: usize, heard: u8) -> usize
    ensures { result ≡ place_after place heard }
{
    if heard != 2 {
        0
    } else if place == 0 {
        2
    } else {
        1
    }
}

// Hunting: up to a space; waiting: past the space. Byte by byte: in noise, where runs are short, the search for long
// runs takes up to 1.4 times as many instructions.
fn pass_alike(heard: &[u8], place: usize, i: usize) -> usize
    requires place_bound { place ≤ 1 }
    requires i_in_bounds { i ≤ length heard.now }
    ensures { Stays heard.now place i result }
{
    if place == 0 {
        lists::places::until(heard, i, heard.len(), 2)
    } else {
        lists::places::through(heard, i, heard.len(), 2)
    }
}

// Hunting, waiting, or in a frame: where the walk goes on, or where it ends.
pub fn pass(mode: Mode, heard: &[u8], w: Walk) -> ControlFlow<Walk, Walk>
    requires framed { Framed mode }
    requires frame_of { FrameOf mode (frame_of w) }
    requires to_in_bounds { w.to < length heard.now }
    ensures { Passed mode heard.now w result }
{
    if 1 < w.place {
        return pass_samples(mode, heard, w);
    }
    let at = pass_alike(heard, w.place, w.to);
    if at == heard.len() {
        return ControlFlow::Break(Walk {
            place: w.place,
            digits: 0,
            to: at,
        });
    }
    ControlFlow::Continue(Walk {
        place: place_after(w.place, heard[at]),
        digits: 0,
        to: at + 1,
    })
}

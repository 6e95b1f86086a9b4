// The tones that are heard, and how long each must last. A tone is a byte of the host's slice: a number, by
// `cq_calling_run`.
ghost use Rattle.std.specs.Prelude.{◌≡◌};
ghost use Rattle.calling.specs.Tones.{length_of};

pub const NONE: u8 = 0;

// The last of the tones.
pub const LAST: u8 = 11;

// The longest that a tone must last, in ms.
pub const LONGEST: u16 = 1_700;

// The ms that a tone must last in a row to be the choice. By halves, so that few tests decide: one match of all is
// slower.
#[tactic(auto, unfolding(crate::specs::Tones::length_in, crate::specs::Tones::lengths))]
pub fn length(tone: u8) -> u16
    ensures { result ≡ length_of tone }
{
    match tone {
        0..5 => match tone {
            3..5 => 500,
            _ => 1,
        },
        5..7 => match tone {
            5 => LONGEST,
            _ => 700,
        },
        7 => 1_500,
        _ => 1,
    }
}

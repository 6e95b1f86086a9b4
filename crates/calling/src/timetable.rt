// The timetable of what is sent while nothing is heard. A value is a byte of the host's slice: a number, by
// `cq_calling_run`.
ghost use Rattle.std.specs.Prelude.{◌≡◌};
ghost use Rattle.calling.specs.Timetable.{value_at, place_after};

pub const NOTHING: u8 = 0;

pub const CI: u8 = 1;

pub const XCI: u8 = 2;

// The ms of a period.
pub const PERIOD: u16 = 11_200;

// The value at a place. By thirds, so that few tests decide: one match of all is slower.
#[tactic(auto, unfolding(crate::specs::Timetable::value_in, crate::specs::Timetable::timetable))]
pub fn value(place: u16) -> u8
    ensures { result ≡ value_at place }
{
    match place {
        0..3_800 => match place {
            0..1_000 => NOTHING,
            1_000..1_400 => CI,
            1_400..3_400 => NOTHING,
            _ => CI,
        },
        3_800..8_200 => match place {
            5_800..6_200 => CI,
            _ => NOTHING,
        },
        8_200..PERIOD => XCI,
        _ => NOTHING,
    }
}

// The place of the next ms.
#[tactic(auto, using(crate::proofs::Ends::ends), unfolding(crate::specs::Timetable::place_after))]
pub fn next(place: u16) -> u16
    ensures { result ≡ place_after place }
{
    if place < PERIOD - 1 { place + 1 } else { 0 }
}

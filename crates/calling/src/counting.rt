// Counting ms in a row.
ghost use Rattle.std.specs.Prelude.{◌≡◌};
ghost use Rattle.calling.specs.Counting.{counted};

// The ms in a row with this one, where `tone` was heard for `ms` before it; they are counted up to `most`.
#[tactic(auto, unfolding(crate::specs::Counting::counted))]
pub fn counted(tone: u8, ms: u16, heard: u8, most: u16) -> u16
    ensures { result ≡ counted tone ms heard most }
{
    if heard != tone {
        1
    } else if ms < most {
        ms + 1
    } else {
        ms
    }
}

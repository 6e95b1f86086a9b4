// A text of which every byte is a T.50 character: the bytes are asked once, where the text is made.
ghost use Rattle.std.specs.Prelude.{◌≡◌, true, false, ◌≤◌, length, drop};
ghost use Rattle.std.specs.Result.{MatchResult};
ghost use Rattle.refusals.specs.declared.Refusal.TheVariants as refusal;
ghost use Rattle.alphabet.specs.Normal.{all_chars};

use refusals::Refusal;

#[derive(Clone, Copy)]
pub struct Text<'a> {
    pub bytes: &'a [u8],
    pub ghost chars: { all_chars bytes.now ≡ true },
}

impl<'a> Text<'a> {
    // The text of these bytes; one above 127 is refused.
    pub fn new(bytes: &'a [u8]) -> Result<Text<'a>, Refusal>
        ensures { MatchResult result
            (λ text. text.bytes.now ≡ bytes.now)
            (λ e. (e ≡ refusal.Character) × (all_chars bytes.now ≡ false)) }
    {
        if lists::checks::all_at_most(bytes, 127) {
            Ok(Text { bytes })
        } else {
            Err(Refusal::Character)
        }
    }

    // What is left of it from a place on.
    pub fn left_from(self, place: usize) -> Text<'a>
        requires { place ≤ length self.bytes.now }
        ensures { result.bytes.now ≡ drop place self.entry.bytes.now }
    {
        Text {
            bytes: &self.bytes[place..],
        }
    }
}

// Output words: 32 bits, the kind in bits 31 to 28.
ghost use Rattle.std.specs.Prelude.{◌≡◌, ◌+◌, ◌<◌, length};
ghost use Rattle.std.proofs.lemmas.List.Edits.{sets};
ghost use Rattle.reader.specs.Words.{fault_word, word_of};

use crate::Event;
use frames::Cause;

// Kind 1: a fault. Its ms in bits 27 to 8, its cause in bits 3 to 0; the other bits are zero.
fn fault_word(cause: Cause, ms: u8) -> u32
    ensures { result ≡ fault_word cause ms }
{
    0x1000_0000 + 0x100 * (ms as u32) + cause as u32
}

// The word of what a ms ended in, if any, at a place of the slice; the next place.
pub fn put_word(words: &mut [u32], at: usize, event: Event) -> usize
    requires { at < length words.old }
    ensures value { result ≡ at + length (word_of event) }
    ensures words_after { words.new ≡ sets words.old at (word_of event) }
{
    let word = match event {
        Event::Character(c) => c.0 as u32,
        Event::Fault(cause, ms) => fault_word(cause, ms),
        Event::Nothing => return at,
    };
    words[at] = word;
    at + 1
}

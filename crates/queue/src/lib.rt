// Characters that wait to be sent: at most 256, the front one first.
#![tactic(auto)]

ghost use Rattle.std.specs.Prelude.{◌≡◌, true, false, MatchOption, ◌&&◌, [], ◌∷◌, ◌+◌, ◌≤◌, leb, length, get_or, replicate};
ghost use Rattle.std.proofs.lemmas.List.Edits.{sets};
ghost use Rattle.alphabet.specs.declared.Alphabet.TheVariants.{Baudot, Dtmf};
ghost use Rattle.queue.specs.Queue.{waits, waiters, all_wait, queue, in_range, room, offered, moved_by};

use alphabet::{Alphabet, Char};

// The most characters that wait.
pub const MOST: u16 = 256;

fn between(c: Char, least: u8, most: u8) -> bool
    ensures { result ≡ (leb least c.0 && leb c.0 most) }
{
    (least <= c.0) & (c.0 <= most)
}

// Does a character wait when it is offered? Those that send something do. The test is by ranges and has no branch, so
// that a loop over characters is compiled to vector instructions.
fn waits_baudot(c: Char) -> bool
    ensures { result ≡ waits Baudot c.0 }
{
    between(c, 0x08, 0x0d) | (c.0 == 0x1a) | between(c, 0x1c, 0x7e)
}

fn waits_dtmf(c: Char) -> bool
    ensures { result ≡ waits Dtmf c.0 }
{
    between(c, 0x08, 0x0c)
        | (c.0 == 0x1a)
        | between(c, 0x1c, 0x21)
        | between(c, 0x25, 0x26)
        | between(c, 0x28, 0x2e)
        | between(c, 0x30, 0x5d)
        | (c.0 == 0x5f)
        | between(c, 0x61, 0x7f)
}

fn waits(a: Alphabet, c: Char) -> bool
    ensures { result ≡ waits a c.0 }
{
    match a {
        Alphabet::Baudot => waits_baudot(c),
        Alphabet::Dtmf => waits_dtmf(c),
        Alphabet::Edt => c.0 <= 0x7f,
    }
}

// How many characters of a text wait. By a loop: as `filter` and `count`, it takes a third more instructions in EDT.
fn count_waiters(a: Alphabet, text: &[u8]) -> usize
    ensures { result ≡ length (waiters a text.now) }
{
    let mut n: usize = 0;
    for c in text {
        if waits(a, Char(*c)) {
            n += 1;
        }
    }
    n
}

// A character, written at a place if it waits; the next place.
fn put_char(a: Alphabet, c: Char, chars: &mut [u8], at: usize) -> usize
    requires { at + length (waiters a (c.0 ∷ [])) ≤ length chars.old }
    ensures value { result ≡ at + length (waiters a (c.0 ∷ [])) }
    ensures chars_after { chars.new ≡ sets chars.old at (waiters a (c.0 ∷ [])) }
{
    if waits(a, c) {
        chars[at] = c.0;
        at + 1
    } else {
        at
    }
}

// The characters of a text that wait, written from a place on.
fn put_waiters(a: Alphabet, text: &[u8], chars: &mut [u8], at: usize)
    requires { at + length (waiters a text.now) ≤ length chars.old }
    ensures { chars.new ≡ sets chars.old at (waiters a text.now) }
{
    let mut n = at;
    for c in text {
        n = put_char(a, Char(*c), chars, n);
    }
}

// Is each a character that waits? Every one is looked at: see above.
fn all_wait(a: Alphabet, chars: &[u8]) -> bool
    ensures { result ≡ all_wait a chars.now }
{
    chars.iter().fold(true, |good, c| good & waits(a, Char(*c)))
}

// The character in front after n are taken.
pub fn front_after(chars: &[u8], n: usize) -> Char
    ensures { result.0 ≡ get_or (moved_by n chars.now) 0 0 }
{
    let len = chars.len();
    if n < len {
        Char(chars[n])
    } else if 0 < len {
        Char(chars[len - 1])
    } else {
        Char(0)
    }
}

// All move up n places in one pass; the last character stays in the places that are left. It is stored twice at each of
// them, since of single stores the compiler makes a call of memset. By hand: `copy_within` and `fill` call memmove and
// memset, which the library does not have.
pub fn move_up_by(chars: &mut [u8], n: usize)
    ensures { chars.new ≡ moved_by n chars.old }
{
    if n == 0 || chars.len() == 0 {
        return;
    }
    let last = chars.len() - 1;
    let mut to: usize = 0;
    let mut from = n;
    while from < last {
        let c = chars[from];
        chars[to] = c;
        from += 1;
        to += 1;
    }
    let c = chars[last];
    while to < last {
        chars[to] = c;
        chars[to + 1] = c;
        to += 1;
    }
}

// The characters of a fresh station. The compiler makes 16 stores of this; from 257 bytes on it would call memset, so
// it is kept apart from the edges beside them.
#[inline(never)]
pub fn clear(chars: &mut [u8; 256])
    ensures { chars.new ≡ replicate 256 0 }
{
    *chars = [0; 256];
}

// Question 1 of a queue. With none waiting, as in most runs, nothing is looked up.
pub fn in_range(a: Alphabet, waiting: u16, chars: &[u8; 256]) -> bool
    ensures { result ≡ in_range a (queue waiting chars.now) }
{
    waiting == 0 || (waiting <= MOST && all_wait(a, &chars[..waiting as usize]))
}

// Question 4: is there space for the characters of a text that wait? How many wait after it, if there is.
pub fn space(a: Alphabet, waiting: u16, text: &[u8]) -> Option<u16>
    ensures { MatchOption result (room a (queue waiting []) text.now ≡ false)
        (λ n. (room a (queue waiting []) text.now ≡ true)
        × (n ≡ waiting + length (waiters a text.now))) }
{
    let after = waiting as usize + count_waiters(a, text);
    if after <= MOST as usize {
        Some(after as u16)
    } else {
        None
    }
}

// The characters of a text that wait, put behind those waiting; there is space for them.
pub fn offer(a: Alphabet, waiting: u16, chars: &mut [u8; 256], text: &[u8])
    requires { room a (queue waiting chars.old) text.now ≡ true }
    ensures { chars.new ≡ (offered a (queue waiting chars.old) text.now).chars }
{
    put_waiters(a, text, chars, waiting as usize);
}

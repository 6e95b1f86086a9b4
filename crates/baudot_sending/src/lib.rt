// Text to codes: the bare Baudot conversion of sending.
#![tactic(auto)]

ghost use Rattle.std.specs.Prelude.{◌≡◌, ◌++◌, ◌+◌, ◌^◌, ◌≤◌, ◌<◌, leb, length};
ghost use Rattle.std.proofs.lemmas.List.Edits.{sets};
ghost use Rattle.alphabet.specs.declared.Alphabet.TheVariants.{Baudot};
ghost use Rattle.alphabet.specs.Normal.{sends, is_code};
ghost use Rattle.baudot.specs.Sending.{codes_for, sender_for, codes_of, sender_after, Running};
ghost use Rattle.baudot.specs.code.Bounds.{SenderIn};
ghost use Rattle.baudot.specs.Entries.{sent_of, codes_after};
ghost use Rattle.baudot_sending.specs.code.Opening.{Opened, opening_codes, Silent};
ghost use Rattle.baudot_sending.specs.code.Reply.{codes_reply};

use alphabet::table::SendTable;
use alphabet::text::Text;
use alphabet::{Alphabet, Char, CharCode};
use baudot::Sender;
use baudot::sending::NextCode;
use refusals::Refusal;

// A sender, and the place of its next code.
#[derive(Clone, Copy)]
pub struct Placed {
    pub at: usize,
    pub sender: Sender,
}

// Where a text is taken up: what is left of it, and the sender and the place of its next code.
#[derive(Clone, Copy)]
pub struct Opening<'a> {
    pub rest: Text<'a>,
    pub start: Placed,
}

// The codes of a character, written at a place by a running sender. That `count_char` makes the same walk is for speed:
// as one step, whose codes are then written or counted, it takes a sixth more instructions.
fn put_char(table: SendTable, codes: &mut [u8], placed: Placed, c: Char) -> Placed
    requires c_bound { c.0 < 128 }
    requires running { Running placed.sender }
    requires c_in_bounds { placed.at + length (codes_for placed.sender (sends Baudot c.0)) ≤ length codes.old }
    ensures value { result ≡ record {
      at = placed.at + length (codes_for placed.sender (sends Baudot c.0));
      sender = sender_for placed.sender (sends Baudot c.0);
    } }
    ensures codes_after { codes.new ≡ sets codes.old placed.at (codes_for placed.sender (sends Baudot c.0)) }
{
    let Placed { at, sender } = placed;
    let e = table.lookup(Alphabet::Baudot, c);
    let Some(CharCode { shift: own, code }) = e else {
        return Placed { at, sender };
    };
    let next = NextCode { sender, own };
    if next.wants_shift() {
        let shift = next.shift_behind();
        codes[at] = baudot::sending::shift_code(shift).0;
        codes[at + 1] = code.0;
        Placed {
            at: at + 2,
            sender: Sender { shift, count: 1 },
        }
    } else {
        codes[at] = code.0;
        Placed {
            at: at + 1,
            sender: Sender {
                shift: sender.shift,
                count: sender.count + 1,
            },
        }
    }
}

// The place and the sender behind the codes of a character; nothing is written.
fn count_char(table: SendTable, placed: Placed, c: Char) -> Placed
    requires c_bound { c.0 < 128 }
    requires running { Running placed.sender }
    requires c_bound_2 { placed.at + length (codes_for placed.sender (sends Baudot c.0)) < 2 ^ 64 }
    ensures { result ≡ record {
      at = placed.at + length (codes_for placed.sender (sends Baudot c.0));
      sender = sender_for placed.sender (sends Baudot c.0);
    } }
{
    let Placed { at, sender } = placed;
    let e = table.lookup(Alphabet::Baudot, c);
    let Some(CharCode { shift: own, .. }) = e else {
        return Placed { at, sender };
    };
    let next = NextCode { sender, own };
    if next.wants_shift() {
        Placed {
            at: at + 2,
            sender: Sender {
                shift: next.shift_behind(),
                count: 1,
            },
        }
    } else {
        Placed {
            at: at + 1,
            sender: Sender {
                shift: sender.shift,
                count: sender.count + 1,
            },
        }
    }
}

// The codes of a text, written at a place by a running sender.
fn put_from(table: SendTable, text: Text, start: Placed, codes: &mut [u8]) -> Placed
    requires running { 0 < length text.bytes.now → Running start.sender }
    requires text_in_bounds { start.at + length (codes_of start.sender text.bytes.now) ≤ length codes.old }
    ensures value { result ≡ record {
      at = start.at + length (codes_of start.sender text.entry.bytes.now);
      sender = sender_after start.sender text.entry.bytes.now;
    } }
    ensures codes_after { codes.new ≡ sets codes.old start.at (codes_of start.sender text.entry.bytes.now) }
{
    let mut placed = start;
    for &byte in text.bytes {
        placed = put_char(table, codes, placed, Char(byte));
    }
    placed
}

// The place behind the codes of a text; nothing is written.
fn count_from(table: SendTable, text: Text, start: Placed) -> usize
    requires running { 0 < length text.bytes.now → Running start.sender }
    requires at_bound { start.at ≤ 1 }
    ensures { result ≡ start.at + length (codes_of start.sender text.entry.bytes.now) }
{
    let mut placed = start;
    for &byte in text.bytes {
        placed = count_char(table, placed, Char(byte));
    }
    placed.at
}

// Does a character send anything?
fn sends_code(table: SendTable, c: Char) -> bool
    requires c_bound { c.0 < 128 }
    ensures { result ≡ is_code (sends Baudot c.0) }
{
    table.lookup(Alphabet::Baudot, c).is_some()
}

// The place of the first character that sends anything, or the end.
fn first_code(table: SendTable, text: Text) -> usize
    ensures { Silent text.entry.bytes.now result }
{
    for (i, &byte) in text.bytes.iter().enumerate() {
        if sends_code(table, Char(byte)) {
            return i;
        }
    }
    text.bytes.len()
}

// Where a text is taken up: a fresh sender's first shift code stands ahead of the first character that sends anything.
fn open_text<'a>(table: SendTable, text: Text<'a>, sender: Sender) -> Opening<'a>
    requires sender_in { SenderIn sender }
    ensures { Opened text.entry.bytes.now sender result.rest.bytes.now result.start }
{
    if sender.shift != 0 {
        return Opening {
            rest: text,
            start: Placed { at: 0, sender },
        };
    }
    let rest = text.left_from(first_code(table, text));
    if rest.bytes.is_empty() {
        return Opening {
            rest,
            start: Placed { at: 0, sender },
        };
    }
    Opening {
        rest,
        start: Placed {
            at: 1,
            sender: Sender { shift: 1, count: 0 },
        },
    }
}

// Is there room for the codes of a text? The codes are counted only where twice the text and one more would not do.
fn fits(table: SendTable, text: Text, start: Placed, room: usize) -> bool
    requires running { 0 < length text.bytes.now → Running start.sender }
    requires at_bound { start.at ≤ 1 }
    ensures { result ≡ leb (start.at + length (codes_of start.sender text.entry.bytes.now)) room }
{
    text.bytes.len() < room - room / 2 || count_from(table, text, start) <= room
}

// The codes of an opened text, written from the front.
fn put_opened(table: SendTable, text: Text, start: Placed, codes: &mut [u8]) -> Placed
    requires running { 0 < length text.bytes.now → Running start.sender }
    requires at_bound { start.at ≤ 1 }
    requires text_in_bounds { length (opening_codes start.at ++ codes_of start.sender text.bytes.now)
        ≤ length codes.old }
    ensures value { result ≡ record {
      at = length (opening_codes start.at ++ codes_of start.sender text.entry.bytes.now);
      sender = sender_after start.sender text.entry.bytes.now;
    } }
    ensures codes_after { codes.new ≡ sets codes.old 0
        (opening_codes start.at ++ codes_of start.sender text.entry.bytes.now) }
{
    if start.at == 1 {
        codes[0] = baudot::sending::shift_code(1).0;
    }
    put_from(table, text, start, codes)
}

// The bare conversion of text to codes: the sender reached, and the codes written.
pub fn send(text: &[u8], sender: Sender, codes: &mut [u8]) -> Result<Placed, Refusal>
    ensures value { codes_reply sender result ≡ sent_of text.now sender.shift sender.count (length codes.old) }
    ensures codes_after { codes.new ≡ codes_after text.now sender.shift sender.count codes.old }
{
    if !baudot::sending::in_range(sender) {
        return Err(Refusal::State);
    }
    let checked = Text::new(text)?;
    let mut room = [0; 384];
    let table = SendTable::laid_out_in(&mut room);
    let Opening { rest, start } = open_text(table, checked, sender);
    if !fits(table, rest, start, codes.len()) {
        return Err(Refusal::ResultSlice);
    }
    Ok(put_opened(table, rest, start, codes))
}

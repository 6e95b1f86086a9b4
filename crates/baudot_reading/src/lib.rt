// Codes to text: the bare Baudot conversion of reading.
#![tactic(auto)]

ghost use Rattle.std.specs.Prelude.{◌≡◌, true, ℕ, ◌+◌, ◌≤◌, ◌<◌, leb, length};
ghost use Rattle.std.proofs.lemmas.List.Edits.{sets};
ghost use Rattle.alphabet.specs.Baudot.{read_baudot};
ghost use Rattle.alphabet.specs.Normal.{chars_of};
ghost use Rattle.baudot.specs.Reading.{shift_by, text_of, shift_after, all_codes};
ghost use Rattle.baudot.specs.Counting.{shift_one, shifts_in};
ghost use Rattle.baudot.specs.Entries.{read_of, text_after};
ghost use Rattle.baudot_reading.specs.code.Reply.{text_reply};

use alphabet::LineCode;
use alphabet::table::{FIGURES, LETTERS, ReadTable};
use refusals::Refusal;

// The shift in force, a number as the host's, and the place of the next character.
#[derive(Clone, Copy)]
pub struct Taken {
    pub at: usize,
    pub shift: u8,
}

// A code, read at a place.
fn put_code(table: &ReadTable, text: &mut [u8], taken: Taken, code: LineCode) -> Taken
    requires le_shift { (1 ≤ taken.shift) × (taken.shift ≤ 2) }
    requires code_bound { code.0 < 32 }
    requires code_in_bounds { taken.at + length (chars_of (read_baudot taken.shift code.0)) ≤ length text.old }
    ensures value { result ≡ record {
      at = taken.at + length (chars_of (read_baudot taken.shift code.0));
      shift = shift_by taken.shift (read_baudot taken.shift code.0);
    } }
    ensures text_after { text.new ≡ sets text.old taken.at (chars_of (read_baudot taken.shift code.0)) }
{
    let Taken { at, shift } = taken;
    if code == LETTERS {
        Taken { at, shift: 1 }
    } else if code == FIGURES {
        Taken { at, shift: 2 }
    } else {
        text[at] = table.read_char(shift, code).0;
        Taken { at: at + 1, shift }
    }
}

// A list of codes, read from the front.
fn put_codes(table: &ReadTable, codes: &[u8], shift: u8, text: &mut [u8]) -> Taken
    requires le_shift { (1 ≤ shift) × (shift ≤ 2) }
    requires codes_value { all_codes codes.now ≡ true }
    requires codes_in_bounds { length (text_of shift codes.now) ≤ length text.old }
    ensures value { result ≡ record {
      at = length (text_of shift codes.now);
      shift = shift_after shift codes.now;
    } }
    ensures text_after { text.new ≡ sets text.old 0 (text_of shift codes.now) }
{
    let mut taken = Taken { at: 0, shift };
    for &code in codes {
        taken = put_code(table, text, taken, LineCode(code));
    }
    taken
}

// 1 for a shift code, 0 for any other.
fn shift_one(code: LineCode) -> u8
    ensures { result ≡ shift_one code.0 }
{
    (code == LETTERS || code == FIGURES) as u8
}

// The shift codes of a block, which are few enough to be counted in a byte.
fn count_block(codes: &[u8]) -> u8
    requires { length codes.now ≤ 128 }
    ensures { result ≡ shifts_in codes.now }
{
    codes.iter().map(|code| shift_one(LineCode(*code))).sum()
}

// The shift codes of a list, block by block.
fn count_shifts(codes: &[u8]) -> usize
    ensures { result ≡ shifts_in codes.now }
{
    let mut n: usize = 0;
    for block in codes.chunks(128) {
        n += count_block(block) as usize;
    }
    n
}

// Is there room for what a list of codes reads as? Shift codes are counted only where the codes are more than the room.
fn fits(codes: &[u8], room: usize) -> bool
    requires { all_codes codes.now ≡ true }
    ensures { (s : ℕ) → result ≡ leb (length (text_of s codes.now)) room }
{
    codes.len() <= room || codes.len() - count_shifts(codes) <= room
}

// The bare conversion of codes to text: the shift reached, and the characters written.
pub fn read(codes: &[u8], shift: u8, text: &mut [u8]) -> Result<Taken, Refusal>
    ensures value { text_reply shift result ≡ read_of codes.now shift (length text.old) }
    ensures text_after { text.new ≡ text_after codes.now shift text.old }
{
    if shift == 0 || 2 < shift {
        return Err(Refusal::State);
    }
    if !lists::checks::all_at_most(codes, 31) {
        return Err(Refusal::Code);
    }
    if !fits(codes, text.len()) {
        return Err(Refusal::ResultSlice);
    }
    let table = ReadTable::new();
    Ok(put_codes(&table, codes, shift, text))
}

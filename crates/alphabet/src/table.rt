// The tables of sending and reading, and their lookups. How an entry is packed and where it is stored is known to this
// module and to `stored` alone.
ghost use Rattle.std.specs.Prelude.{◌≡◌, ℕ, ◌+◌, ◌-◌, ◌≤◌, ◌<◌};
ghost use Rattle.std.proofs.lemmas.List.Edits.{sets};
ghost use Rattle.lists.specs.Tables.{tabulate};
ghost use Rattle.alphabet.specs.declared.Alphabet.TheVariants as alphabets;
ghost use Rattle.alphabet.specs.declared.Reads.TheVariants.{Character};
ghost use Rattle.alphabet.specs.Baudot.{letters_code, figures_code, read_baudot};
ghost use Rattle.alphabet.specs.Dtmf.{read_dtmf};
ghost use Rattle.alphabet.specs.Normal.{sends, reads, read_back};
ghost use Rattle.alphabet.specs.code.Packing.{base, unpacked, entry_at, send_table, stored_table, place_of};
ghost use Rattle.alphabet.specs.code.Packing.{read_table, shift_of, dtmf_at};

use crate::stored::Stored;
use crate::{Alphabet, Char, CharCode, LineCode, Reads};

// The codes that select letters and figures.
pub const LETTERS: LineCode = LineCode(0b11111);

pub const FIGURES: LineCode = LineCode(0b11011);

// The characters of Table A.1, letters and then figures; 0 for a code that selects a shift.
const READ_BAUDOT: [u8; 64] = [
    0x08, 0x45, 0x0a, 0x41, 0x20, 0x53, 0x49, 0x55, 0x0d, 0x44, 0x52, 0x4a, 0x4e, 0x46, 0x43, 0x4b,
    0x54, 0x5a, 0x4c, 0x57, 0x48, 0x59, 0x50, 0x51, 0x4f, 0x42, 0x47, 0x00, 0x4d, 0x58, 0x56, 0x00,
    0x08, 0x33, 0x0a, 0x2d, 0x20, 0x00, 0x38, 0x37, 0x0d, 0x24, 0x34, 0x27, 0x2c, 0x21, 0x3a, 0x28,
    0x35, 0x22, 0x29, 0x32, 0x3d, 0x36, 0x30, 0x31, 0x39, 0x3f, 0x2b, 0x00, 0x2e, 0x2f, 0x3b, 0x00,
];

// The rows of Table B.1 that remain, by their code: a character, or 255 without a row.
const READ_DTMF: [u8; 256] = [
    0xff, 0x62, 0x65, 0x68, 0x6b, 0x6e, 0x71, 0x74, 0x77, 0x7a, 0x20, 0xff, 0xff, 0xff, 0xff, 0xff,
    0xff, 0x61, 0x64, 0x67, 0x6a, 0x6d, 0x70, 0x73, 0x76, 0x79, 0x08, 0xff, 0xff, 0xff, 0xff, 0xff,
    0xff, 0x63, 0x66, 0x69, 0x6c, 0x6f, 0x72, 0x75, 0x78, 0x2e, 0x3f, 0xff, 0xff, 0xff, 0xff, 0xff,
    0xff, 0x2b, 0x2d, 0x3d, 0x3a, 0x25, 0x28, 0x29, 0x2c, 0x0a, 0x00, 0xff, 0xff, 0xff, 0xff, 0xff,
    0xff, 0x31, 0x32, 0x33, 0x34, 0x35, 0x36, 0x37, 0x38, 0x39, 0x30, 0xff, 0xff, 0xff, 0xff, 0xff,
    0xff, 0xff, 0xff, 0xff, 0xff, 0xff, 0xff, 0xff, 0xff, 0xff, 0xff, 0xff, 0xff, 0xff, 0xff, 0xff,
    0xff, 0x42, 0x45, 0x48, 0x4b, 0x4e, 0x51, 0x54, 0x57, 0x5a, 0x20, 0xff, 0xff, 0xff, 0xff, 0xff,
    0xff, 0xff, 0xff, 0xff, 0xff, 0xff, 0xff, 0xff, 0xff, 0xff, 0xff, 0xff, 0xff, 0xff, 0xff, 0xff,
    0xff, 0xff, 0xff, 0xff, 0xff, 0xff, 0xff, 0xff, 0xff, 0xff, 0xff, 0xff, 0xff, 0xff, 0xff, 0xff,
    0xff, 0xff, 0xff, 0xff, 0xff, 0xff, 0xff, 0xff, 0xff, 0xff, 0xff, 0xff, 0xff, 0xff, 0xff, 0xff,
    0xff, 0xff, 0xff, 0xff, 0xff, 0xff, 0xff, 0xff, 0xff, 0xff, 0xff, 0xff, 0xff, 0xff, 0xff, 0xff,
    0xff, 0xff, 0xff, 0xff, 0xff, 0xff, 0xff, 0xff, 0xff, 0xff, 0xff, 0xff, 0xff, 0xff, 0xff, 0xff,
    0xff, 0xff, 0xff, 0xff, 0xff, 0xff, 0xff, 0xff, 0xff, 0xff, 0xff, 0xff, 0xff, 0xff, 0xff, 0xff,
    0xff, 0x7b, 0x7c, 0x7d, 0x5b, 0x5c, 0x5d, 0x53, 0x56, 0x59, 0x00, 0xff, 0xff, 0xff, 0xff, 0xff,
    0xff, 0x43, 0x46, 0x49, 0x4c, 0x4f, 0x52, 0x55, 0x58, 0x3b, 0x21, 0xff, 0xff, 0xff, 0xff, 0xff,
    0xff, 0xff, 0xff, 0xff, 0xff, 0xff, 0xff, 0xff, 0xff, 0xff, 0xff, 0xff, 0xff, 0xff, 0xff, 0xff,
];

// Room for the table of sending: 128 entries for each alphabet.
pub type SendRoom = [u8; 384];

// The numbers of a to z of Baudot, for which no entries are stored: from this one on, and below that one.
const LOWER_A: usize = 0x61;

const PAST_LOWER_Z: usize = 0x7b;

// The most entries of each run but the last.
const RUN: usize = 97;

// The entries of the numbers from one on, below another, each from the place that is so far ahead of its number, one
// after the other.
#[inline(always)]
fn lay_run(table: &mut SendRoom, stored: &Stored, from: usize, to: usize, ahead: usize)
    requires stored_value { stored.now ≡ stored_table }
    requires to_bound { to ≤ 384 }
    requires by_index { (n : ℕ) → from ≤ n → n < to → place_of n + ahead ≡ n }
    ensures { table.new ≡ sets table.old from (tabulate entry_at (to - from) from) }
{
    for n in from..to {
        table[n] = stored[n - ahead];
    }
}

// Where a run ends that begins with a number, and goes up to another at most.
#[inline(always)]
fn run_end(from: usize, to: usize) -> usize
    ensures within { result ≤ to }
    ensures some { from < to → from ≤ result }
    ensures none { to ≤ from → result ≡ to }
{
    if to <= from || to - from < RUN {
        to
    } else {
        from + RUN
    }
}

// The same, in three runs: of one with more than 128 entries the compiler would make a call.
#[inline(always)]
fn lay_out(table: &mut SendRoom, stored: &Stored, from: usize, to: usize, ahead: usize)
    requires stored_value { stored.now ≡ stored_table }
    requires to_bound { to ≤ 384 }
    requires by_index { (n : ℕ) → from ≤ n → n < to → place_of n + ahead ≡ n }
    ensures { table.new ≡ sets table.old from (tabulate entry_at (to - from) from) }
{
    let first = run_end(from, to);
    lay_run(table, stored, from, first, ahead);
    let second = run_end(first, to);
    lay_run(table, stored, first, second, ahead);
    lay_run(table, stored, second, to, ahead);
}

// The table of sending, laid out in the room.
#[inline(always)]
pub fn lay_out_all(table: &mut SendRoom)
    ensures { table.new ≡ send_table }
{
    let stored = crate::stored::entries();
    lay_out(table, stored, 0, LOWER_A, 0);
    // A to Z serve them, 32 ahead
    lay_out(table, stored, LOWER_A, PAST_LOWER_Z, 0x20);
    // all others have moved up by 26
    lay_out(table, stored, PAST_LOWER_Z, 384, 26);
}

// Where an alphabet's entries begin.
fn base(a: Alphabet) -> usize
    ensures { result ≡ base a }
{
    match a {
        Alphabet::Baudot => 0,
        Alphabet::Dtmf => 128,
        Alphabet::Edt => 256,
    }
}

// The shift of every code of DTMF and EDT.
const BOTH_SHIFTS: u8 = 3;

// What an entry says.
fn unpacked(a: Alphabet, e: u8) -> Option<CharCode>
    ensures { result ≡ unpacked a e }
{
    if e == 0 {
        return None;
    }
    let (shift, code) = match a {
        Alphabet::Baudot => (e / 32, e % 32),
        Alphabet::Dtmf => (BOTH_SHIFTS, e),
        Alphabet::Edt => (BOTH_SHIFTS, e % 128),
    };
    Some(CharCode {
        shift,
        code: LineCode(code),
    })
}

// The table of sending, in room of its caller's, so that it is not copied: a loop has it laid out once.
#[derive(Clone, Copy)]
pub struct SendTable<'a> {
    pub entries: &'a SendRoom,
    pub ghost laid_out: { entries.now ≡ send_table },
}

impl<'a> SendTable<'a> {
    #[inline(always)]
    pub fn laid_out_in(room: &'a mut SendRoom) -> SendTable<'a> {
        lay_out_all(room);
        SendTable { entries: room }
    }

    // What a character sends.
    pub fn lookup(self, a: Alphabet, c: Char) -> Option<CharCode>
        requires { c.0 < 128 }
        ensures { result ≡ sends a c.0 }
    {
        let at = base(a) + c.0 as usize;
        unpacked(a, self.entries[at])
    }
}

// The entries of the table of sending, as a value.
pub fn send_table() -> SendRoom
    ensures { result ≡ send_table }
{
    let mut entries = [0; 384];
    lay_out_all(&mut entries);
    entries
}

// What a character sends, by entries that are the table's.
pub fn lookup_in(entries: &SendRoom, a: Alphabet, c: Char) -> Option<CharCode>
    requires table_value { entries.now ≡ send_table }
    requires c_bound { c.0 < 128 }
    ensures { result ≡ sends a c.0 }
{
    SendTable { entries }.lookup(a, c)
}

// What a character sends.
pub fn lookup(a: Alphabet, c: Char) -> Option<CharCode>
    requires { c.0 < 128 }
    ensures { result ≡ sends a c.0 }
{
    let mut room = [0; 384];
    SendTable::laid_out_in(&mut room).lookup(a, c)
}

// The table of reading Baudot: a loop has it built once, and lends it.
#[derive(Clone, Copy)]
pub struct ReadTable {
    pub entries: [u8; 64],
    pub ghost read: { entries ≡ read_table },
}

impl ReadTable {
    pub fn new() -> ReadTable {
        ReadTable {
            entries: READ_BAUDOT,
        }
    }

    // The character of a five-bit code that selects no shift, in letters (1) or figures (2).
    pub fn read_char(&self, shift: u8, code: LineCode) -> Char
        requires le_shift { (1 ≤ shift) × (shift ≤ 2) }
        requires code_bound { code.0 < 32 }
        requires fact { (code.0 ≡ letters_code → ⊥) × (code.0 ≡ figures_code → ⊥) }
        ensures { Character result ≡ read_baudot shift code.0 }
    {
        read_char(&self.entries, shift, code)
    }
}

// The entries of the table of reading Baudot, as a value.
pub fn read_table() -> [u8; 64]
    ensures { result ≡ read_table }
{
    ReadTable::new().entries
}

// The character of such a code, by entries that are the table's.
pub fn read_char(entries: &[u8; 64], shift: u8, code: LineCode) -> Char
    requires table_value { entries.now ≡ read_table }
    requires le_shift { (1 ≤ shift) × (shift ≤ 2) }
    requires code_bound { code.0 < 32 }
    requires fact { (code.0 ≡ letters_code → ⊥) × (code.0 ≡ figures_code → ⊥) }
    ensures { Character result ≡ read_baudot shift code.0 }
{
    let at = (shift as usize - 1) * 32 + code.0 as usize;
    Char(entries[at])
}

// Letters for any shift but figures.
fn shift_of(shift: u8) -> u8
    ensures { result ≡ shift_of shift }
{
    if shift == 2 { 2 } else { 1 }
}

// What a five-bit code reads as in a shift.
pub fn read_baudot(shift: u8, code: LineCode) -> Reads
    requires { code.0 < 32 }
    ensures { result ≡ read_baudot shift code.0 }
{
    if code == LETTERS {
        return Reads::Shift(1);
    }
    if code == FIGURES {
        return Reads::Shift(2);
    }
    Reads::Character(ReadTable::new().read_char(shift_of(shift), code))
}

fn dtmf_entry(at: usize) -> u8
    requires { at < 256 }
    ensures { result ≡ dtmf_at at }
{
    READ_DTMF[at]
}

// What a DTMF code reads as.
pub fn read_dtmf(code: LineCode) -> Reads
    ensures { result ≡ read_dtmf code.0 }
{
    let e = dtmf_entry(code.0 as usize);
    if e < 128 {
        Reads::Character(Char(e))
    } else {
        Reads::NoRow
    }
}

// What a code reads as, in a shift (which only Baudot looks at).
#[tactic(auto, unfolding(crate::specs::Normal::reads))]
pub fn reads(a: Alphabet, shift: u8, code: LineCode) -> Reads
    requires { a ≡ alphabets.Baudot → code.0 < 32 }
    ensures { result ≡ reads a shift code.0 }
{
    match a {
        Alphabet::Baudot => read_baudot(shift, code),
        Alphabet::Dtmf => read_dtmf(code),
        Alphabet::Edt => Reads::Character(Char(code.0)),
    }
}

// The normal form of a character: what is read from its code in its own shift; NoRow where it sends nothing.
pub fn normal(a: Alphabet, c: Char) -> Reads
    requires { c.0 < 128 }
    ensures { result ≡ read_back a (sends a c.0) }
{
    match lookup(a, c) {
        None => Reads::NoRow,
        Some(own) => reads(a, own.shift, own.code),
    }
}

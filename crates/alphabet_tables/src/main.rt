// Prints what each character sends and reads as in each alphabet, and what each code reads as.
#![tactic(auto)]

ghost use Rattle.std.specs.Prelude.{◌≤◌, ◌<◌};

use alphabet::{Alphabet, Char, CharCode, LineCode, Reads, dtmf, table};
use std::io::Write;
use std::{fmt, io};
use test_io::{Key, Keys};

// What a code reads as, as printed.
#[derive(Clone, Copy)]
struct Reading(Reads);

impl fmt::Display for Reading {
    fn fmt<W: fmt::Write>(&self, f: &mut fmt::Formatter<W>) -> fmt::Result {
        match self.0 {
            Reads::Character(c) => write!(f, "{:02X}", c.0),
            Reads::Shift(2) => f.write_str("FIGS"),
            Reads::Shift(_) => f.write_str("LTRS"),
            Reads::NoRow => f.write_str("fault"),
        }
    }
}

fn name(a: Alphabet) -> &'static str {
    match a {
        Alphabet::Baudot => "baudot",
        Alphabet::Dtmf => "dtmf",
        Alphabet::Edt => "edt",
    }
}

fn shift_name(shift: u8) -> &'static str {
    match shift {
        1 => "L",
        2 => "F",
        _ => "E",
    }
}

// A sent code, and what it reads as in its own shift.
fn print_code<W: Write>(out: &mut W, a: Alphabet, shift: u8, code: LineCode) -> io::Result<()> {
    match a {
        Alphabet::Baudot => {
            let five = code.0 % 32;
            let reading = Reading(table::read_baudot(shift, LineCode(five)));
            write!(out, "{} {five:05b} reads {reading}", shift_name(shift))
        }
        Alphabet::Dtmf => {
            let reading = Reading(table::read_dtmf(code));
            write!(out, "{} reads {reading}", Keys(code))
        }
        Alphabet::Edt => write!(out, "{:07b} reads {:02X}", code.0 % 128, code.0),
    }
}

fn print_char<W: Write>(out: &mut W, a: Alphabet, c: Char) -> io::Result<()>
    requires { c.0 < 128 }
{
    write!(out, "{} {:02X} sends ", name(a), c.0)?;
    let Some(CharCode { shift, code }) = table::lookup(a, c) else {
        return writeln!(out, "- reads - normal -");
    };
    print_code(out, a, shift, code)?;
    writeln!(out, " normal {}", Reading(table::normal(a, c)))
}

fn print_alphabet<W: Write>(out: &mut W, a: Alphabet) -> io::Result<()> {
    for c in 0..128 {
        print_char(out, a, Char(c))?;
    }
    Ok(())
}

// What each code of Baudot reads as in each shift.
fn print_codes<W: Write>(out: &mut W) -> io::Result<()> {
    for k in 0..32 {
        let letters = Reading(table::read_baudot(1, LineCode(k)));
        let figures = Reading(table::read_baudot(2, LineCode(k)));
        writeln!(out, "code {k:05b} letters {letters} figures {figures}")?;
    }
    Ok(())
}

// So many marks: the last binary places of a number, where 0 is * and 1 is #.
#[derive(Clone, Copy)]
struct Marks {
    bits: u8,
    count: u8,
    ghost count_bound: { count ≤ 8 },
}

impl Marks {
    fn mark(self, place: u8) -> Key
        requires { place < 8 }
        ensures { (11 ≤ result.0) × (result.0 ≤ 12) }
    {
        Key(11 + (self.bits >> place) % 2)
    }

    fn prefix(self) -> u8
        ensures { result ≤ 15 }
    {
        let mut prefix = 0;
        for place in (0..self.count).rev() {
            prefix = dtmf::with_mark(prefix, self.mark(place).0);
        }
        prefix
    }
}

impl fmt::Display for Marks {
    fn fmt<W: fmt::Write>(&self, f: &mut fmt::Formatter<W>) -> fmt::Result {
        for place in (0..self.count).rev() {
            write!(f, "{}", self.mark(place))?;
        }
        Ok(())
    }
}

// What each digit reads as behind some marks.
fn print_digits<W: Write>(out: &mut W, marks: Marks) -> io::Result<()> {
    for digit in 1..=10 {
        let reading = Reading(table::read_dtmf(dtmf::code(marks.prefix(), digit)));
        writeln!(out, "key {marks}{} reads {reading}", Key(digit))?;
    }
    Ok(())
}

fn print_all<W: Write>(out: &mut W) -> io::Result<()> {
    print_alphabet(out, Alphabet::Baudot)?;
    print_alphabet(out, Alphabet::Dtmf)?;
    print_alphabet(out, Alphabet::Edt)?;
    print_codes(out)?;
    for count in 0..=4 {
        for bits in 0..1 << count {
            print_digits(out, Marks { bits, count })?;
        }
    }
    Ok(())
}

fn main(rt: HostRuntime) -> io::Result<()> {
    print_all(&mut rt.stdout())
}

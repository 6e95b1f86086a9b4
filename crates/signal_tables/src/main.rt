// Prints the preamble of each mode and the line signal of each of its codes: each level, and for how many ms in a row.
// The expected output is what the reference prints.
#![tactic(auto)]

ghost use Rattle.std.specs.Prelude.{◌≤◌, ◌<◌};
ghost use Rattle.alphabet.specs.Modes.{alphabet_of, codes};

use alphabet::{LineCode, Mode, dtmf};
use std::io;
use std::io::Write;
use test_io::{Keys, Row};

fn print_signal<W: Write>(out: &mut W, mode: Mode, code: LineCode) -> io::Result<()>
    requires { code.0 < codes (alphabet_of mode) }
{
    let mut row = Row { value: 0, ms: 0 };
    for at in 0..signal::duration(mode, code) {
        if let Some(ended) = row.push(signal::level(mode, code, at)) {
            write!(out, "{ended}")?;
        }
    }
    write!(out, "{row}")
}

fn print_code<W: Write>(out: &mut W, mode: Mode, code: LineCode) -> io::Result<()> {
    match mode {
        Mode::Baudot45 | Mode::Baudot50 => write!(out, "{:05b}", code.0 % 32),
        Mode::Dtmf => write!(out, "{}", Keys(code)),
        Mode::Edt => write!(out, "{:02x}", code.0),
    }
}

// A code and its signal.
fn print_line<W: Write>(out: &mut W, mode: Mode, code: LineCode) -> io::Result<()>
    requires { code.0 < codes (alphabet_of mode) }
{
    print_code(out, mode, code)?;
    print_signal(out, mode, code)?;
    writeln!(out)
}

// The codes of a mode below a number.
fn print_below<W: Write>(out: &mut W, mode: Mode, n: u8) -> io::Result<()>
    requires { n ≤ codes (alphabet_of mode) }
{
    for k in 0..n {
        print_line(out, mode, LineCode(k))?;
    }
    Ok(())
}

// The codes of DTMF, by their prefixes and digits.
fn print_dtmf<W: Write>(out: &mut W) -> io::Result<()> {
    for prefix in 0..=14 {
        for digit in 1..=10 {
            print_line(out, Mode::Dtmf, dtmf::code(prefix, digit))?;
        }
    }
    Ok(())
}

// The number of a mode, and its preamble: mark.
fn print_mode<W: Write>(out: &mut W, mode: Mode) -> io::Result<()> {
    let preamble = Row {
        value: Mode::MARK,
        ms: u64::from(mode.preamble()),
    };
    writeln!(out, "mode {} preamble{preamble}", mode.number())
}

fn print_all<W: Write>(out: &mut W) -> io::Result<()> {
    print_mode(out, Mode::Baudot45)?;
    print_below(out, Mode::Baudot45, Mode::BAUDOT_CODES)?;
    print_mode(out, Mode::Baudot50)?;
    print_below(out, Mode::Baudot50, Mode::BAUDOT_CODES)?;
    print_mode(out, Mode::Dtmf)?;
    print_dtmf(out)?;
    print_mode(out, Mode::Edt)?;
    print_below(out, Mode::Edt, Mode::EDT_CODES)
}

fn main(rt: HostRuntime) -> io::Result<()> {
    print_all(&mut rt.stdout())
}

// Prints the words of readers, each with the number of its ms, for up to 65,536 bytes of standard input. These stand in
// pairs, with LF between them anywhere: m and a digit for a fresh reader of that mode; i and a count for inhibited ms;
// a level, 0 to @, and a count for heard ms. A count is the byte less 32. The expected output is what the reference
// prints.
#![tactic(auto)]

ghost use Rattle.std.specs.Prelude.{◌≤◌};
ghost use Rattle.reader.specs.code.Bounds.{ReaderIn};

use alphabet::Mode;
use reader::{Event, Reader};
use std::io;
use std::io::Write;
use test_io::{Pairs, count};

// The most bytes of the input.
const MOST: usize = 65_536;

// The word of what a ms ended in, if any.
fn print_word<W: Write>(out: &mut W, ms: u64, event: Event) -> io::Result<()> {
    let mut words = [0u32; 1];
    if reader::words::put_word(&mut words, 0, event) == 1 {
        writeln!(out, "{ms} {}", words[0])?;
    }
    Ok(())
}

// A reader of a mode, and the ms since it was fresh.
#[derive(Clone, Copy)]
struct Listener {
    mode: Mode,
    reader: Reader,
    ms: u64,
    ghost in_range: { ReaderIn mode reader },
}

impl Listener {
    fn fresh(mode: Mode) -> Listener {
        Listener {
            mode,
            reader: Reader::fresh(),
            ms: 0,
        }
    }

    // One heard ms.
    fn hear<W: Write>(&mut self, out: &mut W, level: u8) -> io::Result<()>
        requires { level ≤ 16 }
    {
        let reading = reader::hear(self.mode, self.reader, level);
        print_word(out, self.ms, reading.event)?;
        self.reader = reading.reader;
        self.ms = self.ms.wrapping_add(1);
        Ok(())
    }

    // One inhibited ms.
    fn inhibit(&mut self) {
        self.reader = reader::inhibited(self.reader);
        self.ms = self.ms.wrapping_add(1);
    }

    // A pair of bytes; a pair that is none of the three changes nothing.
    fn read_pair<W: Write>(&mut self, out: &mut W, first: u8, second: u8) -> io::Result<()> {
        match first {
            b'0'..=b'@' => {
                for _ in 0..count(second) {
                    self.hear(out, first - b'0')?;
                }
            }
            b'i' => {
                for _ in 0..count(second) {
                    self.inhibit();
                }
            }
            b'm' => {
                if let Ok(mode) = Mode::try_from(second.wrapping_sub(b'0')) {
                    writeln!(out, "mode {}", mode.number())?;
                    *self = Listener::fresh(mode);
                }
            }
            _ => {}
        }
        Ok(())
    }
}

fn read_text<W: Write>(out: &mut W, text: &[u8]) -> io::Result<()> {
    let mut listener = Listener::fresh(Mode::Baudot45);
    for (first, second) in Pairs(text) {
        listener.read_pair(out, first, second)?;
    }
    Ok(())
}

fn main(rt: HostRuntime) -> io::Result<()> {
    let mut text = [0; MOST];
    let n = test_io::read_full(&mut rt.stdin(), &mut text)?;
    read_text(&mut rt.stdout(), &text[..n])
}

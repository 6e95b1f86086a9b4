// Plays a list of calls on stations and prints what each gives, for up to 65,536 bytes of standard input. These stand
// in pairs, with LF between them anywhere: m and a sign opens a station of the mode that many behind 0; a level, 0 to
// Z, and a count are ms to be heard; u and a sign, then l and a sign, are the high and the low digit of a character to
// be offered, each that many behind 0; n and a count offer the last one so many times more; o and any byte is the
// offer; r and a sign is the run, with the slices that the sign says. A count is the byte less 32. The expected output
// is what the reference prints.
#![tactic(auto)]

ghost use Rattle.std.specs.Prelude.{◌≤◌, ◌<◌};

use arrayvec::ArrayVec;
use baudot::Sender;
use burst::OnLine;
use half_duplex::Core;
use reader::Reader;
use refusals::answer;
use station::Measured;
use std::io;
use std::io::Write;
use test_io::{Pairs, Row, count, print_sent};

// The most bytes of the input.
const MOST: usize = 65_536;

// What slices hold before a call: no level and no word.
const PATTERN: u8 = 99;

const WORD_PATTERN: u32 = 99_999_999;

// The most ms to be heard, the most characters to be offered, and the length of the slices for what is sent and for
// words: one more than a call takes, and a few.
const ROOM: usize = 4100;

// A station of mode 1.
fn fresh() -> Measured {
    let mut station = Measured {
        core: Core {
            waiting: 0,
            silence: 0,
            inhibited: 0,
            line: OnLine::IDLE,
            sender: Sender { shift: 0, count: 0 },
            reader: Reader::fresh(),
            mode: 1,
        },
        edges: edges::none(),
        chars: [0; 256],
    };
    let _ = station.open(1);
    station
}

// The answer of a run, and how many words it wrote.
fn run(station: &mut Measured, heard: &[u8], sent: &mut [u8], words: &mut [u32]) -> (u8, usize) {
    let ran = station_entry::run(station, heard, sent, words);
    (answer(ran), ran.unwrap_or(0))
}

// So many more of a value, as far as there is room.
fn put(values: &mut ArrayVec<u8, ROOM>, value: u8, count: u8) {
    for _ in 0..count {
        let _ = values.try_push(value);
    }
}

// The digit of a character, that many behind 0; 0 for a byte that is none.
fn digit(b: u8) -> u8
    ensures { result < 16 }
{
    match b {
        b'0'..=b'?' => b - b'0',
        _ => 0,
    }
}

// A station; the ms to be heard and the characters to be offered; 16 times the high digit of the next character; the
// last character.
#[derive(Drop)]
struct Play {
    station: Measured,
    heard: ArrayVec<u8, ROOM>,
    text: ArrayVec<u8, ROOM>,
    high: u8,
    last: u8,
}

impl Play {
    fn new() -> Play {
        Play {
            station: fresh(),
            heard: ArrayVec::new(),
            text: ArrayVec::new(),
            high: 0,
            last: 0,
        }
    }

    // A station is opened, and there is nothing to be heard or offered.
    fn open<W: Write>(&mut self, out: &mut W, mode: u8) -> io::Result<()> {
        let answer = answer(self.station.open(mode));
        writeln!(out, "open {mode} {answer} {}", self.station.core.mode)?;
        self.heard.clear();
        self.text.clear();
        self.high = 0;
        self.last = 0;
        Ok(())
    }

    fn offer<W: Write>(&mut self, out: &mut W) -> io::Result<()> {
        let count = self.text.len();
        let answer = answer(self.station.offer(&self.text));
        writeln!(out, "offer {count} {answer} {}", self.station.core.waiting)?;
        self.text.clear();
        self.high = 0;
        self.last = 0;
        Ok(())
    }

    // A run with the first part of two slices; all that they hold is listed.
    fn run<W: Write>(&mut self, out: &mut W, ms: usize, most_words: usize) -> io::Result<()>
        requires { (ms ≤ 4100) × (most_words ≤ 4100) }
    {
        let mut sent = [PATTERN; ROOM];
        let mut words = [WORD_PATTERN; ROOM];
        let count = self.heard.len();
        let (answer, written) = run(
            &mut self.station,
            &self.heard,
            &mut sent[..ms],
            &mut words[..most_words],
        );
        writeln!(out, "run {count} {answer} {written}")?;
        let last = test_io::sent_all(out, Row { value: 0, ms: 0 }, &sent)?;
        print_sent(out, last)?;
        for word in words.iter().filter(|word| **word != WORD_PATTERN) {
            writeln!(out, "word {word}")?;
        }
        self.heard.clear();
        Ok(())
    }

    // The slices of a run: as long as what is heard; one of them, or both, one shorter; or as long as there is.
    fn run_sign<W: Write>(&mut self, out: &mut W, sign: u8) -> io::Result<()> {
        let ms = self.heard.len();
        let less = ms.saturating_sub(1);
        match sign {
            b's' => self.run(out, less, ms),
            b'w' => self.run(out, ms, less),
            b'b' => self.run(out, less, less),
            b'+' => self.run(out, ROOM, ROOM),
            _ => self.run(out, ms, ms),
        }
    }

    // A pair of bytes; one that is none of these changes nothing.
    fn pair<W: Write>(&mut self, out: &mut W, first: u8, second: u8) -> io::Result<()> {
        match first {
            b'0'..=b'Z' => put(&mut self.heard, first - b'0', count(second)),
            b'm' => {
                if let b'0'..=b'~' = second {
                    self.open(out, second - b'0')?;
                }
            }
            b'u' => self.high = 16 * digit(second),
            b'l' => {
                self.last = self.high.wrapping_add(digit(second));
                put(&mut self.text, self.last, 1);
                self.high = 0;
            }
            b'n' => {
                put(&mut self.text, self.last, count(second));
                self.high = 0;
            }
            b'o' => self.offer(out)?,
            b'r' => self.run_sign(out, second)?,
            _ => {}
        }
        Ok(())
    }
}

fn play_all<W: Write>(out: &mut W, input: &[u8]) -> io::Result<()> {
    let mut play = Play::new();
    for (first, second) in Pairs(input) {
        play.pair(out, first, second)?;
    }
    Ok(())
}

fn main(rt: HostRuntime) -> io::Result<()> {
    let mut input = [0; MOST];
    let n = test_io::read_full(&mut rt.stdin(), &mut input)?;
    play_all(&mut rt.stdout(), &input[..n])
}

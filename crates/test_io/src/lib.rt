// How the test programs write and read: keys as printed, rows of equal ms, the start of an input, pairs of bytes, and
// counts.
#![tactic(auto)]

ghost use Rattle.std.specs.Prelude.{◌≡◌, ℕ, ◌+◌, ◌≤◌, ◌<◌, IfOk, IfSome, IfNone, length, take, vec_len};
ghost use Rattle.std.specs.Io.KnownBytes.{Consumes, IsAtEnd};
ghost use Rattle.std.specs.Iterator.{at_most};

use alphabet::LineCode;
use std::alloc::Global;
use std::io::{ErrorKind, Read, Write};
use std::{fmt, io, mem};

// A key as printed: 10 is 0, 11 is *, 12 is #. Nothing for 0, no key.
#[derive(Clone, Copy)]
pub struct Key(pub u8);

impl fmt::Display for Key {
    fn fmt<W: fmt::Write>(&self, f: &mut fmt::Formatter<W>) -> fmt::Result {
        match self.0 {
            0 => Ok(()),
            11 => f.write_str("*"),
            12 => f.write_str("#"),
            key => write!(f, "{}", key % 10),
        }
    }
}

// A DTMF code as its keys, up to four.
#[derive(Clone, Copy)]
pub struct Keys(pub LineCode);

impl fmt::Display for Keys {
    fn fmt<W: fmt::Write>(&self, f: &mut fmt::Formatter<W>) -> fmt::Result {
        for at in 0..4 {
            write!(f, "{}", Key(alphabet::dtmf::key(self.0, at)))?;
        }
        Ok(())
    }
}

// A value, and for how many ms in a row.
#[derive(Clone, Copy)]
pub struct Row {
    pub value: u8,
    pub ms: u64,
}

impl Row {
    pub const LONGEST: u64 = 1_000_000;

    // One more ms: the row goes on, or another begins, and this one has ended.
    pub fn push(&mut self, value: u8) -> Option<Row>
        ensures goes_on { IfNone result ((self.new.value ≡ self.old.value) × (self.new.ms ≡ self.old.ms + 1)) }
        ensures ended { IfSome result (λ r. (r ≡ self.old) × (self.new.ms ≡ 1)) }
        ensures value_after { self.new.value ≡ value }
    {
        if self.value == value && self.ms < Self::LONGEST {
            self.ms += 1;
            None
        } else {
            Some(mem::replace(self, Row { value, ms: 1 }))
        }
    }
}

// Nothing for an empty row.
impl fmt::Display for Row {
    fn fmt<W: fmt::Write>(&self, f: &mut fmt::Formatter<W>) -> fmt::Result {
        if self.ms == 0 {
            return Ok(());
        }
        write!(f, " {} {}", self.value, self.ms)
    }
}

// A row of what was sent, as a line.
pub fn print_sent<W: Write>(out: &mut W, row: Row) -> io::Result<()> {
    if row.ms == 0 {
        return Ok(());
    }
    writeln!(out, "sent{row}")
}

// The sent ms of a slice; the last row is not printed yet.
pub fn sent_all<W: Write>(out: &mut W, row: Row, sent: &[u8]) -> io::Result<Row> {
    let mut row = row;
    for value in sent {
        if let Some(ended) = row.push(*value) {
            print_sent(out, ended)?;
        }
    }
    Ok(row)
}

// Reads until the buffer is full or the input ends; how many bytes there are. They are the input's next, and all of
// them if the buffer is not full. The programs lend arrays: with a Vec they could run out of memory.
pub fn read_full<R: Read>(input: &mut R, buffer: &mut [u8]) -> io::Result<usize>
    ensures within { IfOk result (λ n. n ≤ length buffer.new) }
    ensures front { IfOk result (λ n. Consumes (R.remaining input.old) (R.remaining input.new) (take n buffer.new)) }
    ensures ended { IfOk result (λ n. n < length buffer.new → IsAtEnd (R.remaining input.new)) }
{
    let mut n = 0;
    for _ in 0..u64::MAX {
        if buffer.len() <= n {
            return Ok(n);
        }
        match input.read(&mut buffer[n..]) {
            Ok(0) => return Ok(n),
            Ok(more) => n += more,
            Err(e) => {
                if e.kind() != ErrorKind::Interrupted {
                    return Err(e);
                }
            }
        }
    }
    Err(ErrorKind::Interrupted.into())
}

// The first bytes of an input, up to a limit, for a caller without room for the limit: the Vec grows with what comes.
// It can run out of memory, and loses the rest of a packet that is longer than one read: the programs use `read_full`.
pub fn read_start<R: Read + Drop>(alloc: Global, input: R, limit: usize) -> io::Result<Vec<u8>>
    ensures within { IfOk result (λ read. vec_len read ≤ limit) }
    ensures start { IfOk result (λ read. IfSome (R.remaining input) (λ bytes. read.items ≡ take limit bytes)) }
{
    let mut read = Vec::new(alloc);
    input.take(limit as u64).read_to_end(&mut read)?;
    read.truncate(limit);
    Ok(read)
}

const LF: u8 = b'\n';

// The pairs of bytes of a text, with LF between them anywhere. A last byte that is alone is none.
#[derive(Drop)]
pub struct Pairs<'a>(pub &'a [u8]);

impl<'a> Iterator for Pairs<'a> {
    type Item = (u8, u8);

    ghost remaining = { λ pairs. at_most (length pairs.0.now) };

    fn next(&mut self) -> Option<(u8, u8)> {
        let start = self.0.iter().position(|b| *b != LF)?;
        let [first, second, others @ ..] = &self.0[start..] else {
            return None;
        };
        self.0 = others;
        Some((*first, *second))
    }
}

// The count that a byte of the input stands for: the byte less 32; 0 for a byte that is none.
pub fn count(b: u8) -> u8 {
    match b {
        b'!'..=b'~' => b - b' ',
        _ => 0,
    }
}

#[cfg(test)]
mod tests {
    use super::*;
    use std::test::Fail;

    #[test]
    fn reads_until_full(rt: HostRuntime) -> Result<(), Fail> {
        let mut input = b"codes".as_slice();
        let mut buffer = [0; 3];
        assert_eq!(rt; read_full(&mut input, &mut buffer)?, 3);
        assert_eq!(rt; buffer.as_slice(), b"cod".as_slice());
        assert_eq!(rt; read_full(&mut input, &mut buffer)?, 2);
        assert_eq!(rt; buffer.as_slice(), b"esd".as_slice());
        Ok(())
    }

    #[test]
    fn reads_start(rt: HostRuntime) -> Result<(), Fail> {
        let input = b"codes";
        let front = read_start(rt.alloc(), input.as_slice(), 3)?;
        assert_eq!(rt; front.as_slice(), b"cod".as_slice());
        let all = read_start(rt.alloc(), input.as_slice(), 8)?;
        assert_eq!(rt; all.as_slice(), b"codes".as_slice());
        Ok(())
    }

    #[test]
    fn pairs_bytes(rt: HostRuntime) -> Result<(), Fail> {
        let pairs: Vec<(u8, u8)> = Pairs(b"\n\nm2\n3\n5~\n@").collect(rt.alloc())?;
        let want = [(b'm', b'2'), (b'3', b'\n'), (b'5', b'~')];
        assert_eq!(rt; pairs.as_slice(), want.as_slice());
        Ok(())
    }

    #[test]
    fn prints_keys_and_rows(rt: HostRuntime) -> Result<(), Fail> {
        let keys = Keys(alphabet::dtmf::code(2, 10));
        assert_eq!(rt; format!(in rt.alloc(); "{keys}")?.as_str(), "#0");
        let row = Row { value: 1, ms: 22 };
        assert_eq!(rt; format!(in rt.alloc(); "{row}")?.as_str(), " 1 22");
        Ok(())
    }
}

// Lists the Baudot codes of up to 4,096 bytes of standard input, one a line.
#![tactic(auto)]

use std::io;
use std::io::Write;

mod listing;

// The most bytes of the input, and the most of their codes.
const MOST: usize = 4096;

const MOST_CODES: usize = 2 * MOST + 1;

fn main(rt: HostRuntime) -> io::Result<()> {
    let mut text = [0; MOST];
    let n = test_io::read_full(&mut rt.stdin(), &mut text)?;
    let mut codes = [0; MOST_CODES];
    let mut lines = [0; 6 * MOST_CODES];
    let n = listing::list_codes(&text[..n], &mut codes, &mut lines);
    rt.stdout().write_all(&lines[..n])
}

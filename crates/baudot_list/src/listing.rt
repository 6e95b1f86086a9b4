// The lines of the listing program.
ghost use Rattle.std.specs.Prelude.{◌≡◌, ◌+◌, ◌*◌, ◌≤◌, ◌<◌, length};
ghost use Rattle.lists.specs.Lists.{written};
ghost use Rattle.std.proofs.lemmas.List.Edits.{sets};
ghost use Rattle.baudot_list.specs.Listing.{digit, line_of, lines_of, listing};

use alphabet::LineCode;
use baudot::Sender;

// The last binary digit of a number, as a character.
fn digit(n: u8) -> u8
    ensures { result ≡ digit n }
{
    b'0' + n % 2
}

// A code as five digits and LF, written at a place.
fn put_line(lines: &mut [u8], at: usize, code: LineCode)
    requires { at + 6 ≤ length lines.old }
    ensures { lines.new ≡ sets lines.old at (line_of code.0) }
{
    lines[at] = digit(code.0 / 16);
    lines[at + 1] = digit(code.0 / 8);
    lines[at + 2] = digit(code.0 / 4);
    lines[at + 3] = digit(code.0 / 2);
    lines[at + 4] = digit(code.0);
    lines[at + 5] = b'\n';
}

// The lines of a list of codes, written from the front.
fn put_lines(codes: &[u8], lines: &mut [u8])
    requires { 6 * length codes.now ≤ length lines.old }
    ensures { lines.new ≡ sets lines.old 0 (lines_of codes.now) }
{
    for (i, code) in codes.iter().enumerate() {
        put_line(lines, 6 * i, LineCode(*code));
    }
}

// What is printed for a text, written from the front of `lines`; its length. `codes` is room to work in.
pub fn list_codes(text: &[u8], codes: &mut [u8], lines: &mut [u8]) -> usize
    requires text_in_bounds { 2 * length text.now + 1 ≤ length codes.old }
    requires codes_in_bounds { 6 * length codes.old ≤ length lines.old }
    ensures value { result ≡ length (listing text.now) }
    ensures lines_after { lines.new ≡ written (listing text.now) lines.old }
{
    let fresh = Sender { shift: 0, count: 0 };
    let Ok(sent) = baudot_sending::send(text, fresh, codes) else {
        return 0;
    };
    let n = sent.at;
    put_lines(&codes[..n], lines);
    6 * n
}

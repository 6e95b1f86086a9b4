// The numbering of DTMF codes: 16 times the prefix, plus the digit's key.
ghost use Rattle.std.specs.Prelude.{◌≡◌, ◌≤◌, ◌<◌, get_or};
ghost use Rattle.alphabet.specs.Dtmf.{with_mark, dtmf_code, is_dtmf_code, keys_of};
ghost use Rattle.alphabet.specs.code.Packing.{key_at};

use crate::LineCode;

// The keys of a prefix, four to each: its marks, then 255 where the digit stands.
const KEYS: [u8; 64] = [
    255, 0, 0, 0, 11, 255, 0, 0, 12, 255, 0, 0, 11, 11, 255, 0, 11, 12, 255, 0, 12, 11, 255, 0, 12,
    12, 255, 0, 11, 11, 11, 255, 11, 11, 12, 255, 11, 12, 11, 255, 11, 12, 12, 255, 12, 11, 11,
    255, 12, 11, 12, 255, 12, 12, 11, 255, 12, 12, 12, 255, 255, 0, 0, 0,
];

// The prefix with one more mark, 11 or 12. A key is its number, as on the line.
#[tactic(auto, unfolding(crate::specs::Dtmf::with_mark))]
pub fn with_mark(prefix: u8, mark: u8) -> u8
    requires { (11 ≤ mark) × (mark ≤ 12) }
    ensures { result ≡ with_mark prefix mark }
{
    if prefix < 7 {
        2 * prefix + (mark - 10)
    } else {
        15
    }
}

// The code of a prefix and a digit's key.
pub fn code(prefix: u8, digit: u8) -> LineCode
    requires { (prefix ≤ 15) × (digit ≤ 10) }
    ensures { result.0 ≡ dtmf_code prefix digit }
{
    LineCode(16 * prefix + digit)
}

// Is it a code: a prefix of at most three marks, and a digit's key?
#[tactic(auto, unfolding(crate::specs::Dtmf::is_dtmf_code))]
pub fn is_code(code: LineCode) -> bool
    ensures { result ≡ is_dtmf_code code.0 }
{
    let digit = code.0 % 16;
    code.0 / 16 < 15 && 1 <= digit && digit <= 10
}

fn entry(at: usize) -> u8
    requires { at < 64 }
    ensures { result ≡ key_at at }
{
    KEYS[at]
}

// The key at a place of a code; 0 behind its digit.
pub fn key(code: LineCode, at: u8) -> u8
    requires { at < 4 }
    ensures { result ≡ get_or (keys_of code.0) at 0 }
{
    let k = entry((code.0 / 16 * 4 + at) as usize);
    if k == 255 { code.0 % 16 } else { k }
}

// A burst: what a station has on the line, part by part and ms by ms.
#![tactic(auto)]

ghost use Rattle.std.specs.Prelude.{◌≡◌, ◌+◌, ◌^◌, ◌≤◌, ◌<◌, cond, not, ◌&&◌, eqb, length};
ghost use Rattle.alphabet.specs.declared.Alphabet.TheVariants.{Baudot};
ghost use Rattle.alphabet.specs.Modes.{alphabet_of};
ghost use Rattle.baudot.specs.Sending.{wanted};
ghost use Rattle.burst.specs.Rules.{opens_with_shift, opening_shift, sender_after_own};
ghost use Rattle.burst.specs.Line.{idle, is_code, part_ms, is_over, begun, shift_begins, is_opening, next_code, level_on, one_gone, ended, closed};
ghost use Rattle.burst.specs.Range.{is_code_of, code_in, line_in};
ghost use Rattle.baudot.specs.code.Bounds.{SenderIn};
ghost use Rattle.burst.specs.code.Bounds.{LineIn, SendsIn};
ghost use Rattle.burst.specs.code.Next.{shift_ahead, next_for, whole};

use alphabet::{Alphabet, Char, CharCode, LineCode, Mode};
use baudot::Sender;

pub mod rules;

// What is on the line. Part 0: no burst; 1: the preamble; 2: a code. `at` of the part's ms are sent. Hosts in C lend it
// with any numbers: so the part is no enum, and its range is asked and no fact of the type.
#[repr(C)]
#[derive(Clone, Copy)]
pub struct OnLine {
    pub at: u16,
    pub part: u8,
    pub code: LineCode,
}

// What a ms starts with: what is on the line, the sender, and whether the front character is taken.
#[derive(Clone, Copy)]
pub struct Loaded {
    pub line: OnLine,
    pub sender: Sender,
    pub takes: bool,
}

pub const IDLE: u8 = 0;

pub const PREAMBLE: u8 = 1;

pub const CODE: u8 = 2;

impl OnLine {
    pub const IDLE: OnLine = OnLine {
        at: 0,
        part: IDLE,
        code: LineCode(0),
    };

    // The first ms of the preamble.
    const PREAMBLE: OnLine = OnLine {
        at: 0,
        part: PREAMBLE,
        code: LineCode(0),
    };

    // The first ms of a code.
    fn code(code: LineCode) -> OnLine
        ensures { result ≡ record { at = 0; part = 2; code = code } }
    {
        OnLine {
            at: 0,
            part: CODE,
            code,
        }
    }
}

// Nothing is on the line.
pub fn idle() -> OnLine
    ensures { result ≡ idle }
{
    OnLine::IDLE
}

// The ms of a part.
pub fn part_ms(mode: Mode, l: OnLine) -> u16
    ensures { result ≡ length (part_ms mode l) }
{
    match l.part {
        IDLE => 0,
        CODE => signal::duration(mode, l.code),
        _ => mode.preamble(),
    }
}

// In a burst with no ms of the part left?
#[tactic(auto, unfolding(crate::specs::Line::is_over))]
pub fn is_over(mode: Mode, l: OnLine) -> bool
    ensures { result ≡ is_over mode l }
{
    l.part != IDLE && part_ms(mode, l) <= l.at
}

// In no burst, one begins with its preamble where it is to begin.
#[tactic(auto, unfolding(crate::specs::Line::begun))]
pub fn begun(begins: bool, l: OnLine) -> OnLine
    ensures { result ≡ begun begins l }
{
    if begins && l.part == IDLE {
        OnLine::PREAMBLE
    } else {
        l
    }
}

// The sender after an own code.
fn sender_after_own(a: Alphabet, s: Sender) -> Sender
    requires { SenderIn s }
    ensures { result ≡ sender_after_own a s }
{
    match a {
        Alphabet::Baudot => Sender {
            shift: s.shift,
            count: s.count + 1,
        },
        Alphabet::Dtmf | Alphabet::Edt => s,
    }
}

// Does a burst open with a shift code?
fn opens_with_shift(a: Alphabet) -> bool
    ensures { result ≡ opens_with_shift a }
{
    matches!(a, Alphabet::Baudot)
}

// The shift that it opens with.
fn opening_shift(s: Sender) -> u8
    ensures { result ≡ opening_shift s }
{
    if s.shift == 0 { 1 } else { s.shift }
}

// Is a shift code to open the burst, behind its preamble?
pub fn is_opening(a: Alphabet, l: OnLine) -> bool
    ensures { result ≡ is_opening a l }
{
    l.part == PREAMBLE && opens_with_shift(a)
}

// The shift code that goes ahead of an own code in Baudot, 0 for none, as in the definition `wanted`: the one that
// opens the burst, or the one that is wanted.
fn baudot_ahead(l: OnLine, s: Sender, own: u8) -> u8
    requires sender_in { SenderIn s }
    requires le_own { (1 ≤ own) × (own ≤ 3) }
    ensures { result ≡ shift_ahead Baudot l s own }
{
    if l.part == PREAMBLE {
        opening_shift(s)
    } else if s.shift == 0 {
        1
    } else {
        baudot::sending::wanted(s, own)
    }
}

// The same in any alphabet.
fn shift_ahead(a: Alphabet, l: OnLine, s: Sender, own: u8) -> u8
    requires sender_in { SenderIn s }
    requires le_own { (1 ≤ own) × (own ≤ 3) }
    ensures { result ≡ shift_ahead a l s own }
{
    match a {
        Alphabet::Baudot => baudot_ahead(l, s, own),
        Alphabet::Dtmf | Alphabet::Edt => 0,
    }
}

// The next code, with characters waiting: a shift code where one goes ahead of the front character, else its own.
pub fn code_begins(a: Alphabet, l: OnLine, s: Sender, sends: Option<CharCode>) -> Loaded
    requires sender_in { SenderIn s }
    requires sends_in { SendsIn a sends }
    ensures { result ≡ next_for a l s sends }
{
    let Some(CharCode { shift: own, code }) = sends else {
        return Loaded {
            line: l,
            sender: s,
            takes: true,
        };
    };
    let w = shift_ahead(a, l, s, own);
    if w == 0 {
        return Loaded {
            line: OnLine::code(code),
            sender: sender_after_own(a, s),
            takes: true,
        };
    }
    // Written out as in `opening_begins`: with one function for both, a text takes more instructions.
    Loaded {
        line: OnLine::code(baudot::sending::shift_code(w)),
        sender: Sender { shift: w, count: 0 },
        takes: false,
    }
}

// A code that begins, with all its ms sent.
fn whole(mode: Mode, q: Loaded) -> Loaded
    ensures { result ≡ whole mode q }
{
    Loaded {
        line: OnLine {
            at: signal::duration(mode, q.line.code),
            ..q.line
        },
        sender: q.sender,
        takes: q.takes,
    }
}

// The next code of a burst, with characters waiting, all of whose ms are sent: the place on the line is their number.
// With it the sender after the code, and whether the front character is taken.
pub fn whole_code(mode: Mode, a: Alphabet, l: OnLine, s: Sender, sends: Option<CharCode>) -> Loaded
    requires sender_in { SenderIn s }
    requires sends_in { SendsIn a sends }
    ensures { result ≡ whole mode (next_for a l s sends) }
{
    whole(mode, code_begins(a, l, s, sends))
}

// The place of the front character after a code.
pub fn place_after(takes: bool, place: usize) -> usize
    requires { place + 1 < 2 ^ 64 }
    ensures { result ≡ cond takes (place + 1) place }
{
    if takes { place + 1 } else { place }
}

// The shift code that opens the burst.
fn opening_begins(s: Sender) -> Loaded
    ensures { result ≡ shift_begins (opening_shift s) }
{
    let shift = opening_shift(s);
    Loaded {
        line: OnLine::code(baudot::sending::shift_code(shift)),
        sender: Sender { shift, count: 0 },
        takes: false,
    }
}

// The same, and all its ms.
pub fn whole_opening(mode: Mode, s: Sender) -> Loaded
    ensures { result ≡ whole mode (shift_begins (opening_shift s)) }
{
    whole(mode, opening_begins(s))
}

// In a burst with no ms of a part left, the next code begins.
pub fn next_code(mode: Mode, waiting: u16, front: Char, l: OnLine, s: Sender) -> Loaded
    requires sender_in { SenderIn s }
    requires front_bound { 1 ≤ waiting → front.0 < 128 }
    ensures { result ≡ next_code mode waiting front.0 l s }
{
    let stays = Loaded {
        line: l,
        sender: s,
        takes: false,
    };
    if !is_over(mode, l) {
        return stays;
    }
    let a = mode.alphabet();
    if is_opening(a, l) {
        return opening_begins(s);
    }
    if waiting == 0 {
        return stays;
    }
    code_begins(a, l, s, alphabet::table::lookup(a, front))
}

// The level that is sent: quiet outside a burst.
pub fn level_on(mode: Mode, l: OnLine) -> u8
    requires { LineIn mode l }
    ensures { result ≡ level_on mode l }
{
    if part_ms(mode, l) <= l.at {
        0
    } else if l.part == PREAMBLE {
        Mode::MARK
    } else {
        signal::level(mode, l.code, l.at)
    }
}

// One ms of the part has gone.
fn one_gone(mode: Mode, l: OnLine) -> OnLine
    requires { LineIn mode l }
    ensures { result ≡ one_gone mode l }
{
    if part_ms(mode, l) <= l.at {
        l
    } else {
        OnLine { at: l.at + 1, ..l }
    }
}

// With no ms of a part left, is the front character next, or does the burst end? Not if a shift code is to open it.
pub fn front_is_next(a: Alphabet, over: bool, l: OnLine) -> bool
    ensures { result ≡ (over && not (is_opening a l)) }
{
    over && !is_opening(a, l)
}

// Where the front character would be next, the burst ends if it is to end.
pub fn ended(next: bool, ends: bool, l: OnLine) -> OnLine
    ensures { result ≡ ended next ends l }
{
    if next && ends { OnLine::IDLE } else { l }
}

// What is on the line after a ms.
pub fn line_after(mode: Mode, ends: bool, l: OnLine) -> OnLine
    requires { LineIn mode l }
    ensures { result ≡ closed mode ends (one_gone mode l) }
{
    let gone = one_gone(mode, l);
    let next = front_is_next(mode.alphabet(), is_over(mode, gone), gone);
    ended(next, ends, gone)
}

// A code of the alphabet?
fn is_code(a: Alphabet, code: LineCode) -> bool
    ensures { result ≡ is_code_of a code.0 }
{
    match a {
        Alphabet::Baudot => code.0 < Mode::BAUDOT_CODES,
        Alphabet::Dtmf => alphabet::dtmf::is_code(code),
        Alphabet::Edt => code.0 < Mode::EDT_CODES,
    }
}

// Is no code on the line, and 0 in its place?
fn no_code(l: OnLine) -> bool
    ensures { result ≡ (not (is_code l) && eqb l.code.0 0) }
{
    l.part != CODE && l.code.0 == 0
}

// A code of the alphabet, or none on the line?
fn code_in(mode: Mode, l: OnLine) -> bool
    ensures { result ≡ code_in (alphabet_of mode) l }
{
    no_code(l) || is_code(mode.alphabet(), l.code)
}

// Is nothing on the line, and all 0? It is asked without a branch between its tests.
fn is_blank(l: OnLine) -> bool
    ensures { result ≡ (eqb l.part 0 && eqb l.code.0 0 && eqb l.at 0) }
{
    (l.part == IDLE) & (l.code.0 == 0) & (l.at == 0)
}

// Question 1 of what is on the line. A station in no burst, the most frequent one, is told by one test.
pub fn in_range(mode: Mode, l: OnLine) -> bool
    ensures { result ≡ line_in mode l }
{
    is_blank(l) || (l.part <= CODE && code_in(mode, l) && l.at <= part_ms(mode, l))
}

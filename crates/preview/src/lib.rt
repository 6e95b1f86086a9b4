// How long a text takes to type out: the ms until a station that was offered it is idle, told before it is offered.
#![tactic(auto)]

ghost use Rattle.std.specs.Prelude.{◌≡◌, IfOk, true, cond, List, ◌++◌, ℕ, ◌+◌, ◌≤◌, ◌<◌, length, get_or};
ghost use Rattle.std.specs.Result.{result_unwrap_or};
ghost use Rattle.refusals.specs.Refusals.{answer_of};
ghost use Rattle.alphabet.specs.Modes.{alphabet_of};
ghost use Rattle.alphabet.specs.Normal.{is_code, all_chars};
ghost use Rattle.baudot.specs.code.Bounds.{SenderIn};
ghost use Rattle.burst.specs.Line.{begun};
ghost use Rattle.half_duplex.specs.Core.{mode_in};
ghost use Rattle.half_duplex.specs.code.Bounds.{CoreIn};
ghost use Rattle.station.specs.Station.{offered_to};
ghost use Rattle.station.specs.Measured.{station_of};
ghost use Rattle.station.specs.Entries.{offer_answer};
ghost use Rattle.station.specs.code.Accepted.{Accepted};
ghost use Rattle.preview.specs.Preview.{IdleIn};
ghost use Rattle.preview.specs.code.Count.{chars_ms, behind_ms, ahead_ms, busy_ms};

use alphabet::table::SendTable;
use alphabet::{Alphabet, Char, CharCode, Mode};
use baudot::Sender;
use burst::{OnLine, rules};
use half_duplex::Core;
use refusals::Refusal;
use station::Measured;

// What a preview gives to C: 0 or the number of the refusal, and the ms.
#[repr(C)]
#[derive(Clone, Copy)]
pub struct Previewed {
    pub answer: u8,
    pub ms: u32,
}

impl From<Result<u32, Refusal>> for Previewed {
    ghost from_gives = { λ r p. p ≡ record { answer = answer_of r; ms = result_unwrap_or r 0 } };

    fn from(outcome: Result<u32, Refusal>) -> Previewed {
        Previewed {
            answer: refusals::answer(outcome),
            ms: outcome.unwrap_or(0),
        }
    }
}

// So many ms of codes, and the sender after them.
#[derive(Clone, Copy)]
pub struct Counted {
    pub ms: u32,
    pub sender: Sender,
}

// The ms until the first code that is to come: of the part that is on the line; in no burst, until the line is free,
// and of the preamble.
fn ahead_ms(c: Core) -> u16
    requires { CoreIn c }
    ensures { result ≡ ahead_ms (mode_in c) c.line c.silence }
{
    let mode = Mode::of(c.mode);
    if c.line.part == burst::IDLE {
        rules::FREE - c.silence + mode.preamble()
    } else {
        burst::part_ms(mode, c.line) - c.line.at
    }
}

// The shift code that opens a burst, where one is to come.
fn opened(mode: Mode, l: OnLine, s: Sender) -> Counted
    requires { SenderIn s }
    ensures { SenderIn result.sender × ((cs : List ℕ)
        → result.ms + chars_ms mode result.sender cs ≡ behind_ms mode l s cs) }
{
    if !burst::is_opening(mode.alphabet(), l) {
        return Counted { ms: 0, sender: s };
    }
    let w = burst::whole_opening(mode, s);
    Counted {
        ms: w.line.at as u32,
        sender: w.sender,
    }
}

// A character of two texts, one behind the other.
fn char_at(own: &[u8], text: &[u8], i: usize) -> Char
    requires { i < length own.now + length text.now }
    ensures { result.0 ≡ get_or (own.now ++ text.now) i 0 }
{
    if i < own.len() {
        Char(own[i])
    } else {
        Char(text[i - own.len()])
    }
}

// The ms of a code; none where a character sends nothing.
fn code_ms(sends: Option<CharCode>, ms: u16) -> u16
    ensures { result ≡ cond (is_code sends) ms 0 }
{
    match sends {
        None => 0,
        Some(_) => ms,
    }
}

// The ms of the codes that the characters of two texts send, one text behind the other, and of what goes before them.
// By `while`: where a shift code goes ahead of a character, the place stays.
fn codes(mode: Mode, a: Alphabet, table: SendTable, own: &[u8], text: &[u8], before: Counted) -> u32
    requires a_value { a ≡ alphabet_of mode }
    requires text_value { all_chars (own.now ++ text.now) ≡ true }
    requires sender_in { SenderIn before.sender }
    requires text_bound { before.ms + chars_ms mode before.sender (own.now ++ text.now) ≤ 1_000_000 }
    ensures { result ≡ before.ms + chars_ms mode before.sender (own.now ++ text.now) }
{
    let n = own.len() + text.len();
    let mut ms = before.ms;
    let mut sender = before.sender;
    let mut i: usize = 0;
    while i < n {
        let sends = table.lookup(a, char_at(own, text, i));
        let next = burst::whole_code(mode, a, burst::idle(), sender, sends);
        ms += code_ms(sends, next.line.at) as u32;
        sender = next.sender;
        i = burst::place_after(next.takes, i);
    }
    ms
}

// The same. In each call mode and alphabet are constants, of which the compiler makes a short loop each.
fn codes_in(mode: Mode, table: SendTable, own: &[u8], text: &[u8], before: Counted) -> u32
    requires text_value { all_chars (own.now ++ text.now) ≡ true }
    requires sender_in { SenderIn before.sender }
    requires text_bound { before.ms + chars_ms mode before.sender (own.now ++ text.now) ≤ 1_000_000 }
    ensures { result ≡ before.ms + chars_ms mode before.sender (own.now ++ text.now) }
{
    match mode {
        Mode::Baudot45 => codes(Mode::Baudot45, Alphabet::Baudot, table, own, text, before),
        Mode::Baudot50 => codes(Mode::Baudot50, Alphabet::Baudot, table, own, text, before),
        Mode::Dtmf => codes(Mode::Dtmf, Alphabet::Dtmf, table, own, text, before),
        Mode::Edt => codes(Mode::Edt, Alphabet::Edt, table, own, text, before),
    }
}

// The ms until a station is idle that is not, by its core and those that wait in it, one text behind the other.
pub fn busy_ms(c: Core, own: &[u8], text: &[u8]) -> u32
    requires core_in { CoreIn c }
    requires text_value { all_chars (own.now ++ text.now) ≡ true }
    requires text_bound { behind_ms (mode_in c) (begun true c.line) c.sender (own.now ++ text.now) ≤ 250_000 }
    ensures { result ≡ busy_ms (mode_in c) c.line c.sender c.silence
        (own.now ++ text.now) }
{
    let mode = Mode::of(c.mode);
    let mut room = [0; 384];
    let table = SendTable::laid_out_in(&mut room);
    let first = opened(mode, burst::begun(true, c.line), c.sender);
    let behind = codes_in(mode, table, own, text, first);
    (ahead_ms(c) as u32 + behind).max(1)
}

// The ms until a station is idle that was offered a text, with so many waiting then.
fn ms_left(station: &Measured, text: &[u8], waiting: u16) -> u32
    requires accepted { Accepted (station_of station.now) text.now }
    requires waiting_value { waiting ≡ (offered_to (station_of station.now) text.now).core.waiting }
    ensures { IdleIn (offered_to (station_of station.now) text.now) result }
{
    let c = station.core;
    if (c.line.part == burst::IDLE) & (waiting == 0) {
        0
    } else {
        busy_ms(c, &station.chars[..c.waiting as usize], text)
    }
}

// A preview: the questions of the offer, and the ms until a copy that was offered the text is idle.
pub fn preview(station: &Measured, text: &[u8]) -> Result<u32, Refusal>
    ensures answer_value { answer_of result ≡ offer_answer station.now text.now }
    ensures ms_value { IfOk result (λ ms. IdleIn (offered_to (station_of station.now) text.now) ms) }
{
    let waiting = station.ask(text)?;
    Ok(ms_left(station, text, waiting))
}

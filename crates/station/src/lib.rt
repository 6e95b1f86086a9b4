// A station: opening, offers and runs.
#![tactic(auto)]

ghost use Rattle.std.specs.Prelude.{◌≡◌, IfOk};
ghost use Rattle.refusals.specs.Refusals.{answer_of};
ghost use Rattle.half_duplex.specs.Core.{fresh_core};
ghost use Rattle.station.specs.Station.{station, reader_offered, offered_to};
ghost use Rattle.station.specs.Measured.{station_of};
ghost use Rattle.station.specs.Range.{in_range, measured_in};
ghost use Rattle.station.specs.Entries.{open_of, offer_answer, offer_of};

use alphabet::{Alphabet, Mode};
use baudot::Sender;
use edges::Edges;
use half_duplex::Core;
use reader::Reader;
use refusals::Refusal;

// A core, and the characters that wait, the front one first.
#[repr(C)]
#[derive(Clone, Copy)]
pub struct Station {
    pub core: Core,
    pub chars: [u8; 256],
}

// What a host holds: a core, the edges that wait in it, and the characters that wait.
#[repr(C)]
#[derive(Clone, Copy)]
pub struct Measured {
    pub core: Core,
    pub edges: Edges,
    pub chars: [u8; 256],
}

// A fresh core of mode 1.
fn fresh() -> Core
    ensures { result ≡ fresh_core 1 }
{
    Core {
        waiting: 0,
        silence: burst::rules::FREE,
        inhibited: 0,
        line: burst::idle(),
        sender: Sender { shift: 0, count: 0 },
        reader: Reader::fresh(),
        mode: 1,
    }
}

// The reader after an offer: in Baudot a DEL puts it in letters.
fn reader_offered(a: Alphabet, text: &[u8], r: Reader) -> Reader
    ensures { result ≡ reader_offered a text.now r }
{
    match a {
        Alphabet::Baudot if text.contains(&0x7f) => Reader { shift: 1, ..r },
        _ => r,
    }
}

// Are the numbers of a station beside its edges in range?
pub fn station_in(c: Core, chars: &[u8; 256]) -> bool
    ensures { result ≡ in_range (station c chars.now) }
{
    half_duplex::in_range(c) && queue::in_range(Mode::of(c.mode).alphabet(), c.waiting, chars)
}

impl Measured {
    // Opening it: of mode 1 to 4. A refusal opens it of mode 1.
    pub fn open(&mut self, mode: u8) -> Result<(), Refusal>
        ensures station_after { self.new ≡ (open_of mode).station }
        ensures answer_value { answer_of result ≡ (open_of mode).answer }
    {
        queue::clear(&mut self.chars);
        self.edges = edges::none();
        self.core = fresh();
        Mode::try_from(mode)?;
        self.core.mode = mode;
        Ok(())
    }

    // Question 1: are its numbers in range?
    pub fn in_range(&self) -> bool
        ensures { result ≡ measured_in self.now }
    {
        station_in(self.core, &self.chars)
            && edges::in_range(Mode::of(self.core.mode), self.core.reader.frame, self.edges)
    }

    // The questions of an offer, and how many wait after it.
    pub fn ask(&self, text: &[u8]) -> Result<u16, Refusal>
        ensures answer_value { answer_of result ≡ offer_answer self.now text.now }
        ensures waiting_value { IfOk result
            (λ n. n ≡ (offered_to (station_of self.now) text.now).core.waiting) }
    {
        if !self.in_range() {
            return Err(Refusal::State);
        }
        if !lists::checks::all_at_most(text, 127) {
            return Err(Refusal::Character);
        }
        let a = Mode::of(self.core.mode).alphabet();
        queue::space(a, self.core.waiting, text).ok_or(Refusal::Full)
    }

    // Offering a text: those of its characters that send something wait behind the others.
    pub fn offer(&mut self, text: &[u8]) -> Result<(), Refusal>
        ensures station_after { self.new ≡ (offer_of self.old text.now).station }
        ensures answer_value { answer_of result ≡ (offer_of self.old text.now).answer }
    {
        let waiting = self.ask(text)?;
        let a = Mode::of(self.core.mode).alphabet();
        queue::offer(a, self.core.waiting, &mut self.chars, text);
        self.core.waiting = waiting;
        self.core.reader = reader_offered(a, text, self.core.reader);
        Ok(())
    }
}

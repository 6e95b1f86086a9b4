// Half-duplex access: one ms of a station, beside its queue.
#![tactic(auto)]

ghost use Rattle.std.specs.Prelude.{◌≡◌, ◌≤◌, ◌<◌};
ghost use Rattle.reader.specs.code.Bounds.{ReaderIn};
ghost use Rattle.burst.specs.Rules.{is_inhibited};
ghost use Rattle.burst.specs.Line.{in_burst};
ghost use Rattle.burst.specs.code.Bounds.{LineIn};
ghost use Rattle.half_duplex.specs.Core.{silence_after, reader_ms, event_ms, mode_in, settled_by, settled, waiting_after, core_from_by, stepped_by, stepped};
ghost use Rattle.half_duplex.specs.Range.{timers_in, parts_in, core_in};
ghost use Rattle.half_duplex.specs.code.Bounds.{CoreIn};

use alphabet::{Char, Mode};
use baudot::Sender;
use burst::{Loaded, OnLine, rules};
use reader::{Event, Reader, Reading};

// A station beside its queue: how many wait, the ms of silence up to 300, the inhibited ms to come, what is on the
// line, the sender, the reader, the mode's number. Hosts in C lend it with any numbers: so the mode is no enum, and its
// range is asked (question 1) and no fact of the type.
#[repr(C)]
#[derive(Clone, Copy)]
pub struct Core {
    pub waiting: u16,
    pub silence: u16,
    pub inhibited: u16,
    pub line: OnLine,
    pub sender: Sender,
    pub reader: Reader,
    pub mode: u8,
}

// A core after a ms, what was sent in it, and what it ended in.
#[derive(Clone, Copy)]
pub struct Stepped {
    pub core: Core,
    pub sent: u8,
    pub event: Event,
}

// The ms of silence after a ms.
#[tactic(auto, unfolding(crate::specs::Core::silence_after))]
pub fn silence_after(silent: bool, silence: u16) -> u16
    ensures { result ≡ silence_after silent silence }
{
    if !silent {
        0
    } else if silence < rules::FREE {
        silence + 1
    } else {
        silence
    }
}

// One ms of the reader.
pub fn read(mode: Mode, inhibited: bool, r: Reader, heard: u8) -> Reading
    requires { ReaderIn mode r }
    ensures { result ≡ record { reader = reader_ms mode inhibited r heard; event = event_ms mode inhibited r heard } }
{
    if inhibited {
        Reading {
            reader: reader::inhibited(r),
            event: Event::Nothing,
        }
    } else {
        reader::hear(mode, r, heard)
    }
}

// Within each ms, sending is settled first. A burst begins if it is told to and there is none.
pub fn settle_by(begins: bool, c: Core, front: Char) -> Loaded
    requires core_in { CoreIn c }
    requires front_bound { 1 ≤ c.waiting → front.0 < 128 }
    ensures { result ≡ settled_by begins c front.0 }
{
    burst::next_code(
        Mode::of(c.mode),
        c.waiting,
        front,
        burst::begun(begins, c.line),
        c.sender,
    )
}

// The same for a station by itself.
pub fn settle(c: Core, front: Char) -> Loaded
    requires core_in { CoreIn c }
    requires front_bound { 1 ≤ c.waiting → front.0 < 128 }
    ensures { result ≡ settled c front.0 }
{
    settle_by(rules::may_begin(c.waiting, c.silence), c, front)
}

// How many wait after a ms.
pub fn waiting_after(takes: bool, waiting: u16) -> u16
    ensures { result ≡ waiting_after takes waiting }
{
    if takes {
        waiting.saturating_sub(1)
    } else {
        waiting
    }
}

// A core after what a ms starts with; the reader has been asked already.
fn core_from(ends: bool, c: Core, l: Loaded, heard: u8, reader: Reader) -> Core
    requires line_in { LineIn (mode_in c) l.line }
    requires reader_value { reader ≡ reader_ms (mode_in c) (is_inhibited (in_burst l.line) c.inhibited) c.reader heard }
    ensures { result ≡ core_from_by ends c l heard }
{
    let burst = l.line.part != burst::IDLE;
    let deaf = rules::is_inhibited(burst, c.inhibited);
    Core {
        waiting: waiting_after(l.takes, c.waiting),
        silence: silence_after(rules::is_silent(deaf, heard), c.silence),
        inhibited: rules::inhibited_after(burst, c.inhibited),
        line: burst::line_after(Mode::of(c.mode), ends, l.line),
        sender: l.sender,
        reader,
        mode: c.mode,
    }
}

// One ms, after what it starts with. A burst ends with the last ms of a code if it is told to.
pub fn step_by(ends: bool, c: Core, l: Loaded, heard: u8) -> Stepped
    requires core_in { CoreIn c }
    requires line_in { LineIn (mode_in c) l.line }
    ensures { result ≡ stepped_by ends c l heard }
{
    let mode = Mode::of(c.mode);
    let sent = burst::level_on(mode, l.line);
    let q = read(
        mode,
        rules::is_inhibited(l.line.part != burst::IDLE, c.inhibited),
        c.reader,
        heard,
    );
    Stepped {
        core: core_from(ends, c, l, heard, q.reader),
        sent,
        event: q.event,
    }
}

// The same for a station by itself.
pub fn step(c: Core, l: Loaded, heard: u8) -> Stepped
    requires core_in { CoreIn c }
    requires line_in { LineIn (mode_in c) l.line }
    ensures { result ≡ stepped c l heard }
{
    step_by(
        rules::may_end(waiting_after(l.takes, c.waiting)),
        c,
        l,
        heard,
    )
}

// Are the mode and the timers in range?
fn timers_in(c: Core) -> bool
    ensures { result ≡ timers_in c }
{
    1 <= c.mode && c.mode <= 4 && c.silence <= rules::FREE && c.inhibited <= rules::INHIBITED
}

// Are what is on the line, the sender and the reader in range?
fn parts_in(c: Core) -> bool
    ensures { result ≡ parts_in c }
{
    let mode = Mode::of(c.mode);
    burst::in_range(mode, c.line)
        && baudot::sending::in_range(c.sender)
        && reader::in_range(mode, c.reader)
}

// Question 1 of a station beside its queue.
#[tactic(auto, unfolding(crate::specs::Range::core_in))]
pub fn in_range(c: Core) -> bool
    ensures { result ≡ core_in c }
{
    timers_in(c) && parts_in(c)
}

// Cores after some ms that go alike.
#![tactic(auto)]

ghost use Rattle.std.specs.Prelude.{◌≡◌, true, not, ◌&&◌, ◌+◌, ◌-◌, ◌≤◌, eqb, take, reverse, position};
ghost use Rattle.lists.specs.Lists.{all_at_most};
ghost use Rattle.alphabet.specs.declared.Mode.TheVariants as mode;
ghost use Rattle.alphabet.specs.Modes.{longest};
ghost use Rattle.burst.specs.Rules.{free_ms};
ghost use Rattle.burst.specs.Line.{further, front_is_next};
ghost use Rattle.half_duplex.specs.Core.{mode_in};
ghost use Rattle.half_duplex_runs.specs.code.Cores.{silence_for, silence_over, is_idle, deaf_reader, loaded_core, sent_for, coded_core, deaf_for, listened};

use baudot::Sender;
use burst::{Loaded, OnLine, rules};
use frames::Frame;
use half_duplex::Core;
use keys::Keys;
use reader::Reader;

// The silence after n ms without signal.
pub fn silence_for(silence: u16, n: usize) -> u16
    requires { silence ≤ free_ms }
    ensures { result ≡ silence_for silence n }
{
    if rules::FREE as usize - silence as usize <= n {
        rules::FREE
    } else {
        silence + n as u16
    }
}

// How many quiet ms stand behind the last that isn't, if that is one of the last 300.
fn quiet_behind(heard: &[u8]) -> Option<usize>
    ensures { result ≡ position (λ x. not (eqb x 0)) (take free_ms (reverse heard.now)) }
{
    heard
        .iter()
        .rev()
        .take(rules::FREE as usize)
        .position(|x| *x != 0)
}

// The silence after some ms that the receiver hears: the quiet ms at their end, and the silence before if all are
// quiet. None is above the bound.
pub fn silence_over(silence: u16, heard: &[u8], bound: u8) -> u16
    requires silence_le_free_ms { silence ≤ free_ms }
    requires heard_value { all_at_most bound heard.now ≡ true }
    ensures { result ≡ silence_over silence heard.now }
{
    if bound == 0 {
        return silence_for(silence, heard.len());
    }
    match quiet_behind(heard) {
        Some(n) => n as u16,
        None => silence_for(silence, heard.len()),
    }
}

// Is a reader idle?
#[tactic(auto, unfolding(crate::specs::code::Cores::is_idle))]
fn is_idle(r: Reader) -> bool
    ensures { result ≡ is_idle r }
{
    r.frame.place == 0
        && r.frame.digits == 0
        && r.keys.key == 0
        && r.keys.ms == 0
        && r.keys.needed == 0
}

// Does an idle reader hear quiet ms alone, where none is above the bound? Then it stays as it is.
pub fn stays_idle(r: Reader, bound: u8) -> bool
    ensures { result ≡ (is_idle r && eqb bound 0) }
{
    is_idle(r) && bound == 0
}

// The quiet ms that a reader of keys still needs, after n quiet ms.
fn needed_for(needed: u8, n: usize) -> u8
    ensures { result ≡ needed - n }
{
    if needed as usize <= n {
        0
    } else {
        needed - n as u8
    }
}

// A reader after n inhibited ms.
#[tactic(auto, using(crate::proofs::Laws::deaf_some))]
fn deaf_reader(r: Reader, n: usize) -> Reader
    requires { 1 ≤ n }
    ensures { result ≡ deaf_reader r n }
{
    Reader {
        frame: Frame {
            place: 0,
            digits: 0,
        },
        keys: Keys {
            key: 0,
            ms: 0,
            needed: needed_for(r.keys.needed, n),
        },
        ..r
    }
}

// What is on the line, n ms further. No part is longer than the longest DTMF code.
fn further(l: OnLine, n: usize) -> OnLine
    requires { l.at + n ≤ longest mode.Dtmf }
    ensures { result ≡ further l n }
{
    OnLine {
        at: l.at + n as u16,
        ..l
    }
}

// A core in which what a ms starts with is loaded already.
#[tactic(auto, unfolding(crate::specs::code::Cores::loaded_core))]
pub fn loaded(c: Core, l: Loaded) -> Core
    ensures { result ≡ loaded_core c l }
{
    Core {
        waiting: half_duplex::waiting_after(l.takes, c.waiting),
        line: l.line,
        sender: l.sender,
        ..c
    }
}

// A core after n ms of a part, behind which the front character is next or not.
pub fn sent_for(c: Core, n: usize, next: bool) -> Core
    requires le_n { 1 ≤ n }
    requires next_value { next ≡ front_is_next (mode_in c) (further c.line n) }
    requires silence_le_free_ms { c.silence ≤ free_ms }
    requires n_bound { c.line.at + n ≤ longest mode.Dtmf }
    ensures { result ≡ sent_for c n }
{
    Core {
        silence: silence_for(c.silence, n),
        inhibited: rules::INHIBITED,
        line: burst::ended(next, rules::may_end(c.waiting), further(c.line, n)),
        reader: deaf_reader(c.reader, n),
        ..c
    }
}

// A core after n ms of whole codes, which took so many characters.
#[tactic(auto, using(crate::proofs::Laws::burst_some), unfolding(crate::specs::code::Cores::coded_core))]
pub fn coded(c: Core, taken: usize, sender: Sender, line: OnLine, n: usize) -> Core
    requires le_n { 1 ≤ n }
    requires taken_le_waiting { taken ≤ c.waiting }
    requires silence_le_free_ms { c.silence ≤ free_ms }
    ensures { result ≡ coded_core c taken sender line n }
{
    let inhibited = rules::INHIBITED;
    Core {
        waiting: c.waiting - taken as u16,
        silence: silence_for(c.silence, n),
        inhibited,
        line,
        sender,
        reader: deaf_reader(c.reader, n),
        ..c
    }
}

// A core after n inhibited ms in no burst.
#[tactic(auto, unfolding(crate::specs::code::Cores::deaf_for))]
pub fn deaf_for(c: Core, n: usize) -> Core
    requires le_n { 1 ≤ n }
    requires n_le_inhibited { n ≤ c.inhibited }
    requires silence_le_free_ms { c.silence ≤ free_ms }
    ensures { result ≡ deaf_for c n }
{
    Core {
        silence: silence_for(c.silence, n),
        inhibited: c.inhibited - n as u16,
        reader: deaf_reader(c.reader, n),
        ..c
    }
}

// A core with another silence and another reader.
#[tactic(auto, unfolding(crate::specs::code::Cores::listened))]
pub fn listened(c: Core, silence: u16, reader: Reader) -> Core
    ensures { result ≡ listened c silence reader }
{
    Core {
        silence,
        reader,
        ..c
    }
}

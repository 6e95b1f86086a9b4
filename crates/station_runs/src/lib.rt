// The ms of a run, in stretches.
#![tactic(auto)]

ghost use Rattle.std.specs.Prelude.{◌≡◌, true, ◌||◌, ◌+◌, ◌-◌, ◌≤◌, ◌<◌, length};
ghost use Rattle.std.proofs.lemmas.List.Edits.{sets};
ghost use Rattle.lists.specs.Lists.{all_at_most};
ghost use Rattle.burst.specs.Rules.{may_begin};
ghost use Rattle.burst.specs.Line.{in_burst};
ghost use Rattle.half_duplex.specs.Core.{mode_in};
ghost use Rattle.queue.specs.Queue.{moved_by};
ghost use Rattle.station.specs.Station.{station, station_after, sent_by, words_by};
ghost use Rattle.station.specs.Range.{in_range};
ghost use Rattle.alphabet.specs.Modes.{highest_level};
ghost use Rattle.station_stretches.specs.code.Stretches.{Stretches};

use half_duplex::Core;
use station_stretches::Stretched;

// A core after the ms of a run, and how many words were written.
#[derive(Clone, Copy)]
pub struct Ended {
    pub core: Core,
    pub words: usize,
}

// In a burst, or may one begin?
fn may_send(c: Core) -> bool
    ensures { result ≡ (in_burst c.line || may_begin c.waiting c.silence) }
{
    c.line.part != burst::IDLE || burst::rules::may_begin(c.waiting, c.silence)
}

// The next stretch: whole codes; the ms of a part; inhibited ms; ms that the receiver hears. Of the characters so many
// are taken already.
fn stretch(
    c: Core,
    chars: &[u8],
    taken: usize,
    heard: &[u8],
    bound: u8,
    i: usize,
    sent: &mut [u8],
    words: &mut [u32],
    n: usize,
) -> Stretched
    requires chars_value { in_range (station c (moved_by taken chars.now)) ≡ true }
    requires chars_len { length chars.now ≡ 256 }
    requires waiting_bound { taken + c.waiting ≤ 256 }
    requires heard_value { all_at_most bound heard.now ≡ true }
    requires bound_bound { bound ≤ 16 }
    requires i_in_bounds { i < length heard.now }
    requires heard_in_bounds { length heard.now ≤ length sent.old }
    requires heard_in_bounds_2 { n + length heard.now ≤ length words.old + i }
    ensures { Stretches heard.now c (moved_by taken chars.now) sent.old
        words.old i n result sent.new words.new }
{
    if burst_runs::follows(c, heard.len() - i) {
        burst_runs::codes(c, chars, taken, heard, i, sent, n)
    } else if may_send(c) {
        let front = queue::front_after(chars, taken);
        station_stretches::begin(c, front, heard, i, sent, words, n)
    } else if c.inhibited != 0 {
        station_stretches::wait(c, heard, i, sent, n)
    } else {
        station_stretches::listen(c, heard, bound, i, sent, words, n)
    }
}

// How many characters are taken between two cores of a run: as many as fewer wait.
fn taken_since(first: Core, c: Core) -> usize
    requires { c.waiting ≤ first.waiting }
    ensures { result ≡ first.waiting - c.waiting }
{
    (first.waiting - c.waiting) as usize
}

// The ms of a run, one after the other, none above the bound. The characters that are taken go from the queue in the
// end. By index: each turn goes on behind the stretch that it passed.
pub fn run_all(
    c: Core,
    chars: &mut [u8],
    heard: &[u8],
    bound: u8,
    sent: &mut [u8],
    words: &mut [u32],
) -> Ended
    requires chars_value { in_range (station c chars.old) ≡ true }
    requires chars_len { length chars.old ≡ 256 }
    requires heard_value { all_at_most bound heard.now ≡ true }
    requires bound_bound { bound ≤ highest_level (mode_in c) }
    requires heard_in_bounds { length heard.now ≤ length sent.old }
    requires heard_in_bounds_2 { length heard.now ≤ length words.old }
    ensures core_value { result.core ≡ (station_after (station c chars.old) heard.now).core }
    ensures words_value { result.words ≡ length (words_by (station c chars.old) heard.now) }
    ensures chars_after { chars.new ≡ (station_after (station c chars.old) heard.now).chars }
    ensures sent_after { sent.new ≡ sets sent.old 0
        (sent_by (station c chars.old) heard.now) }
    ensures words_after { words.new ≡ sets words.old 0
        (words_by (station c chars.old) heard.now) }
{
    let mut core = c;
    let mut i: usize = 0;
    let mut n: usize = 0;
    while i < heard.len() {
        let taken = taken_since(c, core);
        let x = stretch(core, chars, taken, heard, bound, i, sent, words, n);
        core = x.core;
        i = x.at;
        n = x.words;
    }
    queue::move_up_by(chars, taken_since(c, core));
    Ended { core, words: n }
}

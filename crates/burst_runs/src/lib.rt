// Whole codes of a burst, one after the other.
#![tactic(auto)]

ghost use Rattle.std.specs.Prelude.{◌≡◌, true, ◌&&◌, List, ℕ, ◌+◌, ◌≤◌, leb, ltb, length};
ghost use Rattle.alphabet.specs.Modes.{longest};
ghost use Rattle.burst.specs.Line.{is_over};
ghost use Rattle.half_duplex.specs.Core.{mode_in};
ghost use Rattle.queue.specs.Queue.{moved_by};
ghost use Rattle.station.specs.Station.{station};
ghost use Rattle.station.specs.Range.{in_range};
ghost use Rattle.station_stretches.specs.code.Stretches.{Stretches};

use alphabet::table::SendTable;
use alphabet::{Char, Mode};
use burst::rules;
use half_duplex::Core;
use station_stretches::Stretched;

// Do characters wait, with room for any code?
fn goes_on(taken: usize, waiting: usize, most: usize, room: usize) -> bool
    ensures { result ≡ (ltb taken waiting && leb most room) }
{
    taken < waiting && most <= room
}

// Does a whole code follow? In a burst with no ms of the part left, characters wait, with room for any code.
pub fn follows(c: Core, room: usize) -> bool
    ensures { result ≡ (is_over (mode_in c) c.line && (ltb 0 c.waiting && leb (longest (mode_in c)) room)) }
{
    let mode = Mode::of(c.mode);
    burst::is_over(mode, c.line) && goes_on(0, c.waiting as usize, mode.longest() as usize, room)
}

// Whole codes, as long as characters wait and any code has room. The front character stands at a place of those lent.
// By a test: each turn goes on behind the code that it sent, up to where no code may begin.
pub fn codes(
    c: Core,
    chars: &[u8],
    from: usize,
    heard: &[u8],
    i: usize,
    sent: &mut [u8],
    n: usize,
) -> Stretched
    requires chars_value { in_range (station c (moved_by from chars.now)) ≡ true }
    requires chars_len { length chars.now ≡ 256 }
    requires waiting_bound { from + c.waiting ≤ 256 }
    requires line_value { is_over (mode_in c) c.line ≡ true }
    requires le_waiting { 1 ≤ c.waiting }
    requires c_in_bounds { i + longest (mode_in c) ≤ length heard.now }
    requires heard_in_bounds { length heard.now ≤ length sent.old }
    ensures { (words : List ℕ) → Stretches heard.now c (moved_by from chars.now)
        sent.old words i n result sent.new words }
{
    let mode = Mode::of(c.mode);
    let a = mode.alphabet();
    let mut room = [0; 384];
    let table = SendTable::laid_out_in(&mut room);
    let most = mode.longest() as usize;
    let waiting = c.waiting as usize;
    let mut taken: usize = 0;
    let mut sender = c.sender;
    let mut line = c.line;
    let mut at = i;
    while goes_on(taken, waiting, most, heard.len() - at) {
        let sends = table.lookup(a, Char(chars[from + taken]));
        let next = burst::whole_code(mode, a, line, sender, sends);
        let over = next.line;
        let behind = at + over.at as usize;
        signal_codes::put_whole(mode, over.code, &mut sent[at..behind]);
        taken = burst::place_after(next.takes, taken);
        sender = next.sender;
        line = burst::ended(true, rules::may_end((waiting - taken) as u16), over);
        at = behind;
    }
    Stretched {
        core: half_duplex_runs::coded(c, taken, sender, line, at - i),
        at,
        words: n,
    }
}

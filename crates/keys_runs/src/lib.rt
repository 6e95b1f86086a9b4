// Keys over many ms: those in which none counts are passed over.
#![tactic(auto)]

ghost use Rattle.std.specs.Prelude.{◌≡◌, suc, ◌+◌, ◌-◌, ◌≤◌, ◌<◌, length};
ghost use Rattle.keys.specs.Keys.{key_ms, quiet_ms, needs};
ghost use Rattle.keys_runs.specs.code.Passing.{keys_of, row_of, ms_after, KeyPasses, HeldPasses, QuietFrom};

pub mod levels;

use levels::{Keyed, Levels};

// A key counts at this ms in a row, and with so many not yet; then so many quiet ms are needed.
const KEY_MS: usize = keys::KEY_MS as usize;

const NOT_YET: usize = KEY_MS - 1;

const QUIET_MS: usize = keys::QUIET_MS as usize;

// The ms in a row of what is heard on the last ms, if no key counts before it: 0 for quiet.
fn ms_after(heard: &[u8], to: usize, key: u8, ms: usize, last: usize) -> usize
    requires to_le_last { to ≤ last }
    requires last_in_bounds { last < length heard.now }
    requires to_bound { ms + (last - to) < key_ms }
    ensures { result ≡ ms_after heard.now to key ms (suc (last - to)) }
{
    let x = heard[last];
    if x == 0 {
        return 0;
    }
    let from = lists::places::back(heard, to, last, x);
    let n = last + 1 - from;
    if from <= to && x == key { ms + n } else { n }
}

// While no quiet is needed: up to the ms in which a key counts. The loop has three numbers, since it sees no field by
// its name of a `Keyed` that it changes.
fn pass_count(levels: Levels, k: Keyed) -> Keyed
    requires { k.to ≤ length levels.heard.now }
    ensures { KeyPasses levels.entry.heard.now k result }
{
    if k.needed != 0 {
        return k;
    }
    let heard = levels.heard;
    let mut key = k.key;
    let mut ms = k.ms;
    let mut to = k.to;
    // Each turn goes on behind the first ms in which a key can count.
    while to < heard.len() {
        let last = lists::places::up_to(to, NOT_YET - ms, heard.len() - 1);
        let n = ms_after(heard, to, key, ms, last);
        if n == KEY_MS {
            return Keyed {
                key: heard[last],
                ms: NOT_YET,
                needed: 0,
                to: last,
            };
        }
        key = heard[last];
        ms = n;
        to = last + 1;
    }
    Keyed {
        key,
        ms,
        needed: 0,
        to,
    }
}

// Where quiet begins, after a key that counted; the place itself if it has begun.
fn quiet_from(heard: &[u8], needed: usize, i: usize) -> usize
    requires { i ≤ length heard.now }
    ensures { QuietFrom heard.now needed i result }
{
    if needed != QUIET_MS {
        i
    } else {
        lists::places::until(heard, i, heard.len(), 0)
    }
}

// While quiet is needed: up to where quiet begins, and the quiet ms.
fn pass_quiet(levels: Levels, k: Keyed) -> Keyed
    requires { k.to ≤ length levels.heard.now }
    ensures { KeyPasses levels.entry.heard.now k result }
{
    if k.needed == 0 || k.key != 0 || k.ms != 0 {
        return k;
    }
    let heard = levels.heard;
    let from = quiet_from(heard, k.needed, k.to);
    let end = lists::places::up_to(from, k.needed, heard.len());
    let to = lists::places::through(heard, from, end, 0);
    Keyed {
        key: 0,
        ms: 0,
        needed: k.needed - (to - from),
        to,
    }
}

// The ms in a row of a level, so far.
fn row(k: Keyed, level: u8) -> usize
    ensures { result ≡ row_of (keys_of k) level }
{
    if level == k.key { k.ms } else { 0 }
}

// A reader that needs quiet, before the ms at a place.
fn needing(needed: usize, to: usize) -> Keyed
    requires { needed ≤ quiet_ms }
    ensures keys { keys_of result ≡ needs needed }
    ensures place { result.to ≡ to }
{
    Keyed {
        key: 0,
        ms: 0,
        needed,
        to,
    }
}

// Where one level stands up to the end: to the end, or up to the ms in which the key counts.
fn pass_held(k: Keyed, level: u8, end: usize) -> Keyed
    requires level_bound { level ≤ 16 }
    requires to_lt_end { k.to < end }
    ensures { HeldPasses k level end result }
{
    let n = end - k.to;
    if level == 0 {
        return needing(k.needed - lists::places::up_to(0, k.needed, n), end);
    }
    if k.needed != 0 {
        return needing(QUIET_MS, end);
    }
    let ms = row(k, level);
    if n < KEY_MS - ms {
        return Keyed {
            key: level,
            ms: ms + n,
            needed: 0,
            to: end,
        };
    }
    Keyed {
        key: level,
        ms: NOT_YET,
        needed: 0,
        to: k.to + (NOT_YET - ms),
    }
}

// The quiet that is needed, then up to the ms in which a key counts. Ms that are all alike are passed at once.
pub fn pass_keys(levels: Levels, k: Keyed) -> Keyed
    requires { k.to ≤ length levels.heard.now }
    ensures { KeyPasses levels.entry.heard.now k result }
{
    if !levels.alike {
        return pass_count(levels, pass_quiet(levels, k));
    }
    let heard = levels.heard;
    if k.to == heard.len() {
        return k;
    }
    pass_held(k, heard[k.to], heard.len())
}

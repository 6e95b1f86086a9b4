// Reading DTMF: keys that last, and the quiet between them.
#![tactic(auto)]

ghost use Rattle.std.specs.Prelude.{◌≡◌, cond, eqb, ◌+◌, ◌-◌, ◌<◌};
ghost use Rattle.keys.specs.Range.{keys_in};
ghost use Rattle.keys.specs.Keys.{key_ms, quiet_ms, needs, counts, key_step};

use alphabet::Mode;

// A reader of keys: the key that is heard (0 none) and its ms in a row, and the quiet ms that are still needed. Hosts
// in C lend it with any numbers, so its range is no fact of the type. A key is its number, as on the line.
#[repr(C)]
#[derive(Clone, Copy, Debug, PartialEq, Eq)]
pub struct Keys {
    pub key: u8,
    pub ms: u8,
    pub needed: u8,
}

// The reader after a ms, and the key that counts in it: 0 for none, as in the definition `key_step`.
#[derive(Clone, Copy)]
pub struct KeyRead {
    pub keys: Keys,
    pub key: u8,
}

// A key counts at its 40th ms in a row.
pub const KEY_MS: u8 = 40;

// Then as many quiet ms in a row are needed before the next.
pub const QUIET_MS: u8 = 40;

impl Keys {
    // No key is heard, and no quiet is needed.
    pub const READY: Keys = Keys {
        key: 0,
        ms: 0,
        needed: 0,
    };

    // The quiet ms still needed, after a ms.
    fn needed_after(self, heard: u8) -> u8
        requires { 0 < self.needed }
        ensures { result ≡ cond (eqb heard 0) (self.needed - 1) quiet_ms }
    {
        if heard == 0 {
            self.needed - 1
        } else {
            QUIET_MS
        }
    }

    // The ms of a key in a row, with this one.
    fn ms_after(self, heard: u8) -> u8
        requires { self.ms < key_ms }
        ensures { result ≡ cond (eqb heard self.key) (self.ms + 1) 1 }
    {
        if heard == self.key { self.ms + 1 } else { 1 }
    }
}

// A reader that needs quiet, after a ms in which a key counts (0 none).
fn needs(needed: u8, key: u8) -> KeyRead
    ensures { result ≡ counts (needs needed) key }
{
    KeyRead {
        keys: Keys {
            needed,
            ..Keys::READY
        },
        key,
    }
}

// One ms of reading keys.
pub fn key_step(k: Keys, heard: u8) -> KeyRead
    requires { k.ms < key_ms }
    ensures { result ≡ key_step k heard }
{
    if k.needed != 0 {
        return needs(k.needed_after(heard), 0);
    }
    if heard == 0 {
        return needs(0, 0);
    }
    let ms = k.ms_after(heard);
    if ms == KEY_MS {
        needs(QUIET_MS, heard)
    } else {
        KeyRead {
            keys: Keys {
                key: heard,
                ms,
                needed: 0,
            },
            key: 0,
        }
    }
}

// Question 1, of keys.
pub fn in_range(k: Keys) -> bool
    ensures { result ≡ keys_in k }
{
    k.key <= Mode::LAST_KEY && k.ms < KEY_MS && k.needed <= QUIET_MS
}

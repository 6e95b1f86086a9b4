// When a burst begins and ends, and when the receiver is inhibited.
ghost use Rattle.std.specs.Prelude.{◌≡◌};
ghost use Rattle.burst.specs.Rules.{may_begin, may_end, is_inhibited, inhibited_after, is_silent};

// The ms without signal that make the line free.
pub const FREE: u16 = 300;

// The inhibited ms after a burst.
pub const INHIBITED: u16 = 300;

// Does a burst begin, if there is none?
#[tactic(auto, unfolding(crate::specs::Rules::may_begin))]
pub fn may_begin(waiting: u16, silence: u16) -> bool
    ensures { result ≡ may_begin waiting silence }
{
    0 < waiting && FREE <= silence
}

// Does a burst end with this code?
#[tactic(auto, unfolding(crate::specs::Rules::may_end))]
pub fn may_end(waiting: u16) -> bool
    ensures { result ≡ may_end waiting }
{
    waiting == 0
}

// Is a ms inhibited?
pub fn is_inhibited(burst: bool, inhibited: u16) -> bool
    ensures { result ≡ is_inhibited burst inhibited }
{
    burst || 0 < inhibited
}

// The inhibited ms to come, after a ms.
pub fn inhibited_after(burst: bool, inhibited: u16) -> u16
    ensures { result ≡ inhibited_after burst inhibited }
{
    if burst {
        INHIBITED
    } else {
        inhibited.saturating_sub(1)
    }
}

// Is a ms without signal?
pub fn is_silent(inhibited: bool, heard: u8) -> bool
    ensures { result ≡ is_silent inhibited heard }
{
    inhibited || heard == 0
}

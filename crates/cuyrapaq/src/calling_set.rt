// The entries of a calling set.
ghost use Rattle.std.specs.Prelude.{◌≡◌, length};
ghost use Rattle.calling.specs.Set.{fresh};
ghost use Rattle.calling.specs.Entry.{ran_of, sent_after, choice_of};

use calling::{Calling, CallingChosen};
use refusals::answer;

// A fresh state.
#[unsafe(no_mangle)]
pub extern "C" fn cq_calling_fresh() -> Calling
    ensures { result ≡ fresh }
{
    Calling::fresh()
}

// The choice, 0 until one is made; a state out of range is refused.
#[unsafe(no_mangle)]
pub extern "C" fn cq_calling_choice(state: &Calling) -> CallingChosen
    ensures { result ≡ choice_of state.now }
{
    CallingChosen::from(*state)
}

// A run on the state that the host lends: the sent ms of the tones; 0 or the number of the refusal.
#[unsafe(no_mangle)]
pub extern "C" fn cq_calling_run(state: &mut Calling, tones: &[u8], sent: &mut [u8]) -> u8
    ensures { (result ≡ (ran_of state.old tones.now (length sent.old)).answer)
        × ((state.new ≡ (ran_of state.old tones.now (length sent.old)).state)
        × (sent.new ≡ sent_after state.old tones.now sent.old)) }
{
    answer(state.run(tones, sent))
}

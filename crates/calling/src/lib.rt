// The calling set: what it sends, and the tone that it chooses among those it hears.
#![tactic(auto)]

ghost use Rattle.std.specs.Prelude.{◌≡◌, ◌≤◌, length};
ghost use Rattle.std.proofs.lemmas.List.Edits.{sets};
ghost use Rattle.refusals.specs.Refusals.{answer_of};
ghost use Rattle.calling.specs.Set.{fresh, in_range, pause_over, reached, calling_ms, sent_ms, after, sent_of};
ghost use Rattle.calling.specs.Entry.{ran_of, sent_after, choice_of, chosen_of};

pub mod counting;
pub mod timetable;
pub mod tones;

use refusals::Refusal;

// The ms of none in a row after a tone that make the next ms the timetable's first.
pub const PAUSE: u16 = 400;

// A calling set's state: the ms in a row of what was heard last, the place in the timetable, what was heard last, and
// the choice, 0 until one is made. The host lends it and may write any numbers into it: so its tone and choice are
// numbers, by `cq_calling_run`.
#[repr(C)]
#[derive(Clone, Copy)]
pub struct Calling {
    pub ms: u16,
    pub place: u16,
    pub tone: u8,
    pub choice: u8,
}

impl Calling {
    #[tactic(auto, unfolding(crate::specs::Set::fresh))]
    pub fn fresh() -> Calling
        ensures { result ≡ fresh }
    {
        Calling {
            ms: PAUSE,
            place: 0,
            tone: tones::NONE,
            choice: 0,
        }
    }

    // One ms: what is sent in it.
    #[tactic(auto, unfolding(crate::specs::Set::calling_ms, crate::specs::Set::sent_ms))]
    pub fn step(&mut self, heard: u8) -> u8
        ensures state { self.new ≡ calling_ms self.old heard }
        ensures sent { result ≡ sent_ms self.old heard }
    {
        if self.choice != 0 {
            return timetable::NOTHING;
        }
        if heard != tones::NONE {
            let length = tones::length(heard);
            let ms = counting::counted(self.tone, self.ms, heard, length);
            *self = Calling {
                ms,
                place: 0,
                tone: heard,
                choice: reached(heard, ms, length),
            };
            return timetable::NOTHING;
        }
        if !pause_over(self.tone, self.ms) {
            *self = Calling {
                ms: counting::counted(self.tone, self.ms, tones::NONE, PAUSE),
                place: 0,
                tone: tones::NONE,
                choice: 0,
            };
            return timetable::NOTHING;
        }
        let sent = timetable::value(self.place);
        self.place = timetable::next(self.place);
        sent
    }

    // Question 12: is the state in range?
    #[tactic(auto, using(crate::proofs::Ends::ends), unfolding(crate::specs::Set::in_range))]
    pub fn in_range(self) -> bool
        ensures { result ≡ in_range self }
    {
        self.choice <= tones::LAST
            && self.tone <= tones::LAST
            && 1 <= self.ms
            && self.ms <= tones::LONGEST
            && self.place < timetable::PERIOD
    }

    // The ms of a run, one after the other. On a copy, which stays in registers; steps of the lent state are slower.
    fn run_all(&mut self, tones: &[u8], sent: &mut [u8])
        requires { length tones.now ≤ length sent.old }
        ensures state { self.new ≡ after self.old tones.now }
        ensures sent { sent.new ≡ sets sent.old 0 (sent_of self.old tones.now) }
    {
        let mut state = *self;
        for (i, tone) in tones.iter().enumerate() {
            sent[i] = state.step(*tone);
        }
        *self = state;
    }
}

// What a host asks of any numbers as a state; the first question that fails decides.
#[tactic(auto, unfolding(crate::specs::Entry::answer_to, crate::specs::Entry::ran_of, crate::specs::Entry::sent_after))]
impl Calling {
    // A run: one sent ms for each heard one. A refusal leaves the state and the slice.
    pub fn run(&mut self, tones: &[u8], sent: &mut [u8]) -> Result<(), Refusal>
        ensures answer { answer_of result ≡ (ran_of self.old tones.now (length sent.old)).answer }
        ensures state { self.new ≡ (ran_of self.old tones.now (length sent.old)).state }
        ensures sent { sent.new ≡ sent_after self.old tones.now sent.old }
    {
        if !self.in_range() {
            return Err(Refusal::CallingState);
        }
        if lists::checks::MOST_MS < tones.len() {
            return Err(Refusal::Duration);
        }
        if !lists::checks::all_at_most(tones, tones::LAST) {
            return Err(Refusal::Tone);
        }
        if sent.len() < tones.len() {
            return Err(Refusal::SentSlice);
        }
        self.run_all(tones, sent);
        Ok(())
    }

    // The choice, 0 until one is made.
    #[tactic(auto, unfolding(crate::specs::Entry::choice_of))]
    pub fn choice(self) -> Result<u8, Refusal>
        ensures { chosen_of result ≡ choice_of self }
    {
        if !self.in_range() {
            return Err(Refusal::CallingState);
        }
        Ok(self.choice)
    }
}

// Has there been none for so long that the timetable runs?
fn pause_over(tone: u8, ms: u16) -> bool
    ensures { result ≡ pause_over tone ms }
{
    tone == tones::NONE && PAUSE <= ms
}

// The tone, if it has lasted its length, or 0.
fn reached(tone: u8, ms: u16, length: u16) -> u8
    ensures { result ≡ reached tone ms length }
{
    if ms < length { 0 } else { tone }
}

// What `cq_calling_choice` gives to C: 0 and the choice, or the number of the refusal and 0.
#[repr(C)]
#[derive(Clone, Copy)]
pub struct CallingChosen {
    pub answer: u8,
    pub choice: u8,
}

impl From<Calling> for CallingChosen {
    ghost from_gives = { λ state c. c ≡ choice_of state };

    fn from(state: Calling) -> CallingChosen {
        match state.choice() {
            Ok(choice) => CallingChosen { answer: 0, choice },
            Err(refusal) => CallingChosen {
                answer: refusal.number(),
                choice: tones::NONE,
            },
        }
    }
}

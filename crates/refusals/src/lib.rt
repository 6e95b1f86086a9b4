// The refusals: why an entry does nothing. Each has one number and one meaning, for all entries.
#![tactic(auto)]

ghost use Rattle.std.specs.Prelude.{◌≡◌};
ghost use Rattle.refusals.specs.Refusals.{number, answer_of};

use std::error::Error;
use std::fmt;

#[derive(Clone, Copy, Debug, PartialEq, Eq, Hash)]
pub enum Refusal {
    State = 1,
    Mode = 2,
    Character = 3,
    Full = 4,
    Duration = 5,
    Heard = 6,
    SentSlice = 7,
    WordSlice = 8,
    ResultSlice = 9,
    Code = 10,
    Tone = 11,
    CallingState = 12,
    ReportFull = 18,
}

impl Refusal {
    pub fn number(self) -> u8
        ensures { result ≡ number self }
    {
        self as u8
    }
}

impl fmt::Display for Refusal {
    fn fmt<W: fmt::Write>(&self, f: &mut fmt::Formatter<W>) -> fmt::Result {
        f.write_str(match self {
            Refusal::State =>
                "a number of the station or report, or the shift or count, is out of range",
            Refusal::Mode => "the mode is not 1 to 4",
            Refusal::Character => "a byte of the text is above 127",
            Refusal::Full => "no space for all characters that send something",
            Refusal::Duration => "more than 4,096 ms in one call",
            Refusal::Heard => "a heard ms is no value of the mode",
            Refusal::SentSlice => "the slice for sent ms is shorter than the heard one",
            Refusal::WordSlice => "the slice for output words is shorter than the heard one",
            Refusal::ResultSlice => "the slice for the result is shorter than this result",
            Refusal::Code => "a code is above 31",
            Refusal::Tone => "a heard tone is above 11",
            Refusal::CallingState => "a number of the calling set's state is out of range",
            Refusal::ReportFull => "the report would have more than 65,536 edges",
        })
    }
}

impl Error for Refusal {}

// The answer of an entry.
pub fn answer<T: Drop>(outcome: Result<T, Refusal>) -> u8
    ensures { result ≡ answer_of outcome }
{
    match outcome {
        Ok(_) => 0,
        Err(refusal) => refusal.number(),
    }
}

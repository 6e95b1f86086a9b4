// The entries of a station.
ghost use Rattle.std.specs.Prelude.{◌≡◌, length};
ghost use Rattle.std.specs.Result.{result_unwrap_or};
ghost use Rattle.refusals.specs.Refusals.{answer_of};
ghost use Rattle.edges.specs.Edges.{no_edge};
ghost use Rattle.station.specs.Entries.{open_of, offer_of, ran_of, sent_after, words_after};
ghost use Rattle.preview.specs.Preview.{Previews};

use edges::Report;
use preview::Previewed;
use refusals::Refusal;
use station::Measured;

// What a run gives to C: 0 or the number of the refusal, and how many words were written.
#[repr(C)]
#[derive(Clone, Copy)]
pub struct StationRan {
    pub answer: u8,
    pub words: usize,
}

impl From<Result<usize, Refusal>> for StationRan {
    ghost from_gives = { λ r ran. ran ≡ record { answer = answer_of r; words = result_unwrap_or r 0 } };

    fn from(outcome: Result<usize, Refusal>) -> StationRan {
        StationRan {
            answer: refusals::answer(outcome),
            words: outcome.unwrap_or(0),
        }
    }
}

// The station that the host lends is made a fresh one of a mode, 1 to 4; refusal 2 makes it one of mode 1.
#[unsafe(no_mangle)]
pub extern "C" fn cq_station_open(station: &mut Measured, mode: u8) -> u8
    ensures { (result ≡ (open_of mode).answer) × (station.new ≡ (open_of mode).station) }
{
    refusals::answer(station.open(mode))
}

// An offer to the station that the host lends: 0 or the number of the refusal.
#[unsafe(no_mangle)]
pub extern "C" fn cq_station_offer(station: &mut Measured, text: &[u8]) -> u8
    ensures { (result ≡ (offer_of station.old text.now).answer)
        × (station.new ≡ (offer_of station.old text.now).station) }
{
    refusals::answer(station.offer(text))
}

// How long a text would take to type out, if it were offered to the station that the host lends.
#[unsafe(no_mangle)]
pub extern "C" fn cq_station_preview(station: &Measured, text: &[u8]) -> Previewed
    ensures { Previews station.now text.now result.answer result.ms }
{
    preview::preview(station, text).into()
}

// A run on the station that the host lends: the sent ms and the words of the ms that are heard. It is a run with a
// report of no edge, which is dropped.
#[unsafe(no_mangle)]
#[tactic(auto, using(crate::proofs::Outcomes::words_given))]
pub extern "C" fn cq_station_run(
    station: &mut Measured,
    heard: &[u8],
    sent: &mut [u8],
    words: &mut [u32],
) -> StationRan
    ensures { (result ≡ record {
      answer = (ran_of station.old no_edge heard.now (length sent.old)
          (length words.old)).answer;
      words = (ran_of station.old no_edge heard.now (length sent.old)
          (length words.old)).words;
    })
        × ((station.new ≡ (ran_of station.old no_edge heard.now
        (length sent.old) (length words.old)).station)
        × ((sent.new ≡ sent_after station.old no_edge heard.now
        (length words.old) sent.old)
        × (words.new ≡ words_after station.old no_edge heard.now
        (length sent.old) words.old))) }
{
    station_entry::run(station, heard, sent, words).into()
}

// The same with a report that the host lends: the edges that count in the run are added to it, if it succeeds.
#[unsafe(no_mangle)]
#[tactic(auto, using(crate::proofs::Outcomes::words_given))]
pub extern "C" fn cq_station_run_drift(
    station: &mut Measured,
    heard: &[u8],
    sent: &mut [u8],
    words: &mut [u32],
    report: &mut Report,
) -> StationRan
    ensures { (result ≡ record {
      answer = (ran_of station.old report.old heard.now (length sent.old)
          (length words.old)).answer;
      words = (ran_of station.old report.old heard.now (length sent.old)
          (length words.old)).words;
    })
        × ((station.new ≡ (ran_of station.old report.old heard.now
        (length sent.old) (length words.old)).station)
        × ((report.new ≡ (ran_of station.old report.old heard.now
        (length sent.old) (length words.old)).report)
        × ((sent.new ≡ sent_after station.old report.old heard.now
        (length words.old) sent.old)
        × (words.new ≡ words_after station.old report.old heard.now
        (length sent.old) words.old)))) }
{
    station_entry::run_drift(station, heard, sent, words, report).into()
}

// Running a station: the questions of a run, with a report and without one.
#![tactic(auto)]

ghost use Rattle.std.specs.Prelude.{◌≡◌, true, ◌&&◌, List, ℕ, ◌≤◌, leb, length, IfOk, IfErr};
ghost use Rattle.refusals.specs.Refusals.{number, answer_of};
ghost use Rattle.lists.specs.Lists.{all_at_most};
ghost use Rattle.alphabet.specs.Modes.{highest_level};
ghost use Rattle.edges.specs.Edges.{no_edge};
ghost use Rattle.edges.specs.code.Bounds.{ReportOf};
ghost use Rattle.half_duplex.specs.Core.{mode_in};
ghost use Rattle.station.specs.Station.{station, station_after};
ghost use Rattle.station.specs.Measured.{measured, station_of, measured_after, report_after};
ghost use Rattle.station.specs.Range.{measured_in};
ghost use Rattle.station.specs.Listening.{Listens};
ghost use Rattle.station.specs.Entries.{ran_of, sent_after, words_after};
ghost use Rattle.station_entry.specs.code.Asking.{Yes, No, all_in, Counts};

use alphabet::Mode;
use edges::{Edges, Report};
use half_duplex::Core;
use refusals::Refusal;
use station::Measured;

// The questions of a run but the last, with slices of such lengths, and the highest level heard.
fn ask(station: &Measured, heard: &[u8], sent: usize, words: usize) -> Result<u8, Refusal>
    ensures ok { IfOk result (λ highest. Yes station.now heard.now sent words highest) }
    ensures err { IfErr result (λ e. No station.now heard.now sent words (number e)) }
{
    if !station.in_range() {
        return Err(Refusal::State);
    }
    let ms = heard.len();
    if lists::checks::MOST_MS < ms {
        return Err(Refusal::Duration);
    }
    let highest = lists::checks::largest(heard);
    if Mode::of(station.core.mode).highest_level() < highest {
        return Err(Refusal::Heard);
    }
    if sent < ms {
        return Err(Refusal::SentSlice);
    }
    if words < ms {
        return Err(Refusal::WordSlice);
    }
    Ok(highest)
}

// The edges that wait after a run, told by the place of the frame before it and after it: none outside a frame.
fn edges_after(c: Core, w: Edges, heard: &[u8], after: Core) -> Edges
    requires report_of { ReportOf 900_000 w.seen }
    requires heard_len_bound { length heard.now ≤ 4_096 }
    ensures { (chars : List ℕ) → measured_in (measured (station c chars) w) ≡ true
        → all_at_most (highest_level (mode_in c)) heard.now ≡ true
        → after ≡ (station_after (station c chars) heard.now).core
        → result ≡ (measured_after (measured (station c chars) w) heard.now).edges }
{
    let to = after.reader.frame.place;
    if to < 2 {
        return edges::none();
    }
    let e = edges::element(Mode::of(c.mode));
    if e == 0 {
        return edges::none();
    }
    edges_runs::latest(e, c.reader.frame.place, w, heard, to)
}

// A run without a report: the sent ms and the words of the ms that are heard; how many words were written.
pub fn run(
    station: &mut Measured,
    heard: &[u8],
    sent: &mut [u8],
    words: &mut [u32],
) -> Result<usize, Refusal>
    ensures station_after { station.new ≡ (ran_of station.old no_edge heard.now (length sent.old)
        (length words.old)).station }
    ensures answer_value { answer_of result ≡ (ran_of station.old no_edge heard.now (length sent.old)
        (length words.old)).answer }
    ensures words_value { IfOk result (λ n. n ≡ (ran_of station.old no_edge heard.now (length sent.old)
        (length words.old)).words) }
    ensures sent_after { sent.new ≡ sent_after station.old no_edge heard.now (length words.old) sent.old }
    ensures words_after { words.new ≡ words_after station.old no_edge heard.now (length sent.old) words.old }
{
    let highest = ask(station, heard, sent.len(), words.len())?;
    let c = station.core;
    let e = station_runs::run_all(c, &mut station.chars, heard, highest, sent, words);
    station.edges = edges_after(c, station.edges, heard, e.core);
    station.core = e.core;
    Ok(e.words)
}

// Questions 1 and 6: are the station's numbers in range, and is every heard ms a value of its mode?
fn all_in_range(station: &Measured, heard: &[u8]) -> bool
    ensures { result ≡ all_in station.now heard.now }
{
    station.in_range()
        && lists::checks::all_at_most(heard, Mode::of(station.core.mode).highest_level())
}

// Does a station hear every ms to come? It is in no burst, none waits, and no inhibited ms is to come.
fn only_hears(station: &Measured) -> bool
    ensures { result ≡ true → Listens (station_of station.now) }
{
    let c = station.core;
    c.line.part == burst::IDLE && c.waiting == 0 && c.inhibited == 0
}

// The report after a run of a station that only listens.
fn report_heard(station: &Measured, r: Report, heard: &[u8]) -> Report
    requires by_index { Listens (station_of station.now) }
    requires report_of { ReportOf 65_536 r }
    requires heard_len_bound { length heard.now ≤ 4_096 }
    ensures { measured_in station.now ≡ true → result ≡ report_after station.now r heard.now }
{
    let mode = Mode::of(station.core.mode);
    let f = station.core.reader.frame;
    if frames::in_range(mode, f) && edges::in_range(mode, f, station.edges) {
        edges_runs::measure(mode, f, station.edges, r, heard)
    } else {
        r
    }
}

// The same of any station.
fn report_run(station: &Measured, r: Report, heard: &[u8]) -> Report
    requires report_of { ReportOf 65_536 r }
    requires heard_len_bound { length heard.now ≤ 4_096 }
    ensures { all_in station.now heard.now ≡ true → result ≡ report_after station.now r heard.now }
{
    if all_in_range(station, heard) {
        drift::report_after(station.core, station.edges, &station.chars, r, heard)
    } else {
        r
    }
}

// The report after a run that succeeds. A station that only listens is asked about its frame and its edges alone.
fn report_after(station: &Measured, r: Report, heard: &[u8]) -> Report
    requires report_of { ReportOf 65_536 r }
    requires heard_len_bound { length heard.now ≤ 4_096 }
    ensures { all_in station.now heard.now ≡ true → result ≡ report_after station.now r heard.now }
{
    if only_hears(station) {
        report_heard(station, r, heard)
    } else {
        report_run(station, r, heard)
    }
}

// Questions 1, 6, 7 and 8, of a run that is short enough.
fn accepts(station: &Measured, heard: &[u8], sent: usize, words: usize) -> bool
    ensures { result ≡ (all_in station.now heard.now
        && (leb (length heard.now) sent && leb (length heard.now) words)) }
{
    all_in_range(station, heard) && heard.len() <= sent && heard.len() <= words
}

// The report after a run with slices of such lengths, if it succeeds, or a refusal of the report's own, 1 or 18. It is
// told before anything is written; what the run itself refuses is left to it.
pub fn count(
    station: &Measured,
    r: Report,
    heard: &[u8],
    sent: usize,
    words: usize,
) -> Result<Report, Refusal>
    ensures ok { IfOk result (λ report. Counts station.now r heard.now sent words 0 report) }
    ensures err { IfErr result (λ e. Counts station.now r heard.now sent words (number e) r) }
{
    if !edges::report_in_range(r) {
        return Err(Refusal::State);
    }
    if lists::checks::MOST_MS < heard.len() {
        return Ok(r);
    }
    let report = report_after(station, r, heard);
    if report.edges <= edges::MOST {
        return Ok(report);
    }
    if accepts(station, heard, sent, words) {
        Err(Refusal::ReportFull)
    } else {
        Ok(r)
    }
}

// A run with a report, to which the edges that count in it are added, if it succeeds.
pub fn run_drift(
    station: &mut Measured,
    heard: &[u8],
    sent: &mut [u8],
    words: &mut [u32],
    report: &mut Report,
) -> Result<usize, Refusal>
    ensures station_after { station.new ≡ (ran_of station.old report.old heard.now (length sent.old)
        (length words.old)).station }
    ensures report_after { report.new ≡ (ran_of station.old report.old heard.now (length sent.old)
        (length words.old)).report }
    ensures answer_value { answer_of result ≡ (ran_of station.old report.old heard.now (length sent.old)
        (length words.old)).answer }
    ensures words_value { IfOk result (λ n. n ≡ (ran_of station.old report.old heard.now (length sent.old)
        (length words.old)).words) }
    ensures sent_after { sent.new ≡ sent_after station.old report.old heard.now (length words.old) sent.old }
    ensures words_after { words.new ≡ words_after station.old report.old heard.now (length sent.old)
        words.old }
{
    let counted = count(station, *report, heard, sent.len(), words.len())?;
    let n = run(station, heard, sent, words)?;
    *report = counted;
    Ok(n)
}

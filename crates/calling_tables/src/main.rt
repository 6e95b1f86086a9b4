// Prints what a calling set sends and chooses: the timetable, each tone around its length, tones that are interrupted,
// the pause after a tone, and the refusals. The expected output is what the reference prints.
#![tactic(auto)]

ghost use Rattle.std.specs.Prelude.{◌≤◌};

use calling::{Calling, CallingChosen};
use lists::checks::MOST_MS;
use std::io;
use std::io::Write;
use test_io::{Row, print_sent};

// A slice for sent ms holds this before a call.
const PATTERN: u8 = 9;

// One ms more than a call takes.
const AREA: usize = 4_097;

// One call: the set hears a tone for some ms. A refusal leaves the pattern. The last row is not printed yet.
fn hear_call<W: Write>(
    out: &mut W,
    set: &mut Calling,
    row: Row,
    tone: u8,
    ms: usize,
) -> io::Result<Row>
    requires { ms ≤ 4096 }
{
    let tones = [tone; MOST_MS];
    let mut sent = [PATTERN; MOST_MS];
    let _ = set.run(&tones[..ms], &mut sent[..ms]);
    test_io::sent_all(out, row, &sent[..ms])
}

// The set hears a tone for a number of ms, in calls as long as they may be.
fn hear<W: Write>(out: &mut W, set: &mut Calling, tone: u8, ms: usize) -> io::Result<()> {
    writeln!(out, "heard {tone} {ms}")?;
    let mut row = Row {
        value: PATTERN,
        ms: 0,
    };
    for _ in 0..ms / MOST_MS {
        row = hear_call(out, set, row, tone, MOST_MS)?;
    }
    row = hear_call(out, set, row, tone, ms % MOST_MS)?;
    print_sent(out, row)?;
    let choice = set.choice().unwrap_or(0);
    writeln!(out, "choice {choice}")
}

// A fresh set hears tones, each for its ms.
fn set<W: Write>(out: &mut W, heard: &[(u8, usize)]) -> io::Result<()> {
    writeln!(out, "set")?;
    let mut set = Calling::fresh();
    for (tone, ms) in heard {
        hear(out, &mut set, *tone, *ms)?;
    }
    Ok(())
}

// Is a state taken, and what does asking for its choice give?
fn state<W: Write>(out: &mut W, s: Calling) -> io::Result<()> {
    let Calling {
        ms,
        place,
        tone,
        choice,
    } = s;
    let mut run = s;
    let answer = refusals::answer(run.run(&[0], &mut [PATTERN]));
    let asked = CallingChosen::from(s);
    let (asked, chosen) = (asked.answer, asked.choice);
    writeln!(
        out,
        "state {tone} {ms} {place} {choice} answer {answer} asked {asked} choice {chosen}"
    )
}

// One call with a number of ms of one tone, and the front of an area as its slice: the answer, and how much of the area
// stays.
fn call<W: Write>(out: &mut W, s: Calling, tone: u8, ms: usize, room: usize) -> io::Result<()> {
    let tones = [tone; AREA];
    let mut area = [PATTERN; AREA];
    let mut run = s;
    let answer = refusals::answer(run.run(&tones[..ms.min(AREA)], &mut area[..room.min(AREA)]));
    let kept = area.iter().filter(|value| **value == PATTERN).count();
    writeln!(out, "call {tone} {ms} {room} answer {answer} kept {kept}")
}

// Each tone to one ms short of its length, its last ms, and what comes after the choice.
fn tones<W: Write>(out: &mut W) -> io::Result<()> {
    let all_but_one = [
        (1, 0),
        (2, 0),
        (3, 499),
        (4, 499),
        (5, 1_699),
        (6, 699),
        (7, 1_499),
        (8, 0),
        (9, 0),
        (10, 0),
        (11, 0),
    ];
    for (tone, short) in all_but_one {
        let next = tone % 11 + 1;
        set(out, &[(tone, short), (tone, 1), (0, 1_500), (next, 1_700)])?;
    }
    Ok(())
}

// Tones that are interrupted by others and by none.
fn interrupted<W: Write>(out: &mut W) -> io::Result<()> {
    set(out, &[(3, 499), (4, 499), (3, 499), (4, 500)])?;
    set(out, &[(5, 1_699), (0, 1), (5, 1_699), (5, 1)])
}

// 399 and 400 ms of none after a tone.
fn pauses<W: Write>(out: &mut W) -> io::Result<()> {
    set(
        out,
        &[
            (0, 1_100),
            (6, 699),
            (0, 399),
            (7, 1_499),
            (0, 400),
            (0, 1_400),
        ],
    )?;
    set(
        out,
        &[
            (0, 8_300),
            (7, 1),
            (0, 399),
            (0, 1),
            (0, 1_001),
            (3, 1),
            (0, 1_401),
        ],
    )
}

// The ends of every range of the state.
fn states<W: Write>(out: &mut W) -> io::Result<()> {
    let ends = [
        (11, 400, 0, 0),
        (12, 400, 0, 0),
        (255, 400, 0, 0),
        (0, 0, 0, 0),
        (0, 1, 0, 0),
        (0, 1_700, 0, 0),
        (0, 1_701, 0, 0),
        (0, 65_535, 0, 0),
        (0, 400, 11_199, 0),
        (0, 400, 11_200, 0),
        (0, 400, 65_535, 0),
        (0, 400, 0, 11),
        (0, 400, 0, 12),
        (0, 400, 0, 255),
    ];
    for (tone, ms, place, choice) in ends {
        state(
            out,
            Calling {
                ms,
                place,
                tone,
                choice,
            },
        )?;
    }
    Ok(())
}

// Each refusal, and their order.
fn calls<W: Write>(out: &mut W) -> io::Result<()> {
    let bad = Calling {
        choice: 12,
        ..Calling::fresh()
    };
    call(out, bad, 12, 4_097, 0)?;
    let cases = [
        (12, 4_097, 0),
        (0, 4_097, 4_097),
        (12, 4_096, 0),
        (255, 1, 1),
        (11, 1, 0),
        (0, 4_096, 4_095),
        (0, 4_096, 4_097),
        (0, 0, 0),
    ];
    for (tone, ms, room) in cases {
        call(out, Calling::fresh(), tone, ms, room)?;
    }
    Ok(())
}

fn print_all<W: Write>(out: &mut W) -> io::Result<()> {
    set(out, &[(0, 22_400)])?;
    tones(out)?;
    interrupted(out)?;
    pauses(out)?;
    states(out)?;
    calls(out)
}

fn main(rt: HostRuntime) -> io::Result<()> {
    print_all(&mut rt.stdout())
}

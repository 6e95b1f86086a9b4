// Whole codes: all levels of one, written to a slice.
#![tactic(auto)]

ghost use Rattle.std.specs.Prelude.{◌≡◌, ◌≤◌, ◌<◌, length};
ghost use Rattle.std.proofs.lemmas.List.Edits.{sets};
ghost use Rattle.alphabet.specs.Modes.{alphabet_of, codes};
ghost use Rattle.alphabet.specs.declared.Mode.TheVariants as mode;
ghost use Rattle.signal.specs.Signal.{digits, held, baudot_signal, signal};

use alphabet::{LineCode, Mode};
use signal_runs::{
    BAUDOT_45_ELEMENT, BAUDOT_50_ELEMENT, EDT_CODE, EDT_ELEMENTS, KEY, KEY_ON, fill_ms,
};

// Every element of an EDT code but the first has the whole ms of an element; the first has what is left of the code.
const EDT_NEXT: usize = EDT_CODE / EDT_ELEMENTS;

const EDT_FIRST: usize = EDT_CODE - (EDT_ELEMENTS - 1) * EDT_NEXT;

// Behind the start and seven elements the parity begins, behind that the two stops.
const EDT_PARITY: usize = EDT_FIRST + 7 * EDT_NEXT;

const EDT_STOPS: usize = EDT_PARITY + EDT_NEXT;

// The elements of a number's lowest binary digits, the lowest first, each of so many ms.
fn put_elements(number: u8, count: usize, ms: usize, sent: &mut [u8])
    requires { length sent.old ≡ length (held ms (digits count number)) }
    ensures { sent.new ≡ held ms (digits count number) }
{
    let mut rest = number as u16;
    for j in 0..count {
        fill_ms(
            &mut sent[j * ms..(j + 1) * ms],
            signal::frame_level(rest, 0),
        );
        rest = rest / 2;
    }
}

// A Baudot code: start, five elements, stop.
#[tactic(auto, using(crate::proofs::WholeCodes::baudot_ms, crate::proofs::WholeCodes::digits_ms))]
fn put_baudot(element: usize, code: LineCode, sent: &mut [u8])
    requires { length sent.old ≡ length (baudot_signal element code.0) }
    ensures { sent.new ≡ baudot_signal element code.0 }
{
    let stop = 6 * element;
    fill_ms(&mut sent[..element], Mode::SPACE);
    put_elements(code.0, 5, element, &mut sent[element..stop]);
    fill_ms(&mut sent[stop..stop + 3 * element / 2], Mode::MARK);
}

// A DTMF code, key by key.
fn put_dtmf(code: LineCode, sent: &mut [u8])
    requires { length sent.old ≡ length (signal mode.Dtmf code.0) }
    ensures { sent.new ≡ signal mode.Dtmf code.0 }
{
    for k in 0..sent.len() / KEY {
        let on = k * KEY;
        let off = on + KEY_ON;
        fill_ms(&mut sent[on..off], alphabet::dtmf::key(code, k as u8));
        fill_ms(&mut sent[off..on + KEY], 0);
    }
}

// An EDT code: start, seven elements, parity, two stops.
#[tactic(auto, using(crate::proofs::WholeCodes::edt_ms, crate::proofs::WholeCodes::digits_ms))]
fn put_edt(code: LineCode, sent: &mut [u8])
    requires code_bound { code.0 < codes (alphabet_of mode.Edt) }
    requires sent_len { length sent.old ≡ length (signal mode.Edt code.0) }
    ensures { sent.new ≡ signal mode.Edt code.0 }
{
    let parity = signal::frame_level(signal::parity(code.0) as u16, 0);
    fill_ms(&mut sent[..EDT_FIRST], Mode::SPACE);
    put_elements(code.0, 7, EDT_NEXT, &mut sent[EDT_FIRST..EDT_PARITY]);
    fill_ms(&mut sent[EDT_PARITY..EDT_STOPS], parity);
    fill_ms(&mut sent[EDT_STOPS..EDT_CODE], Mode::MARK);
}

// All ms of a code, from the front. Baudot has two arms: with its element a constant, the compiler makes a few stores
// of each level.
pub fn put_whole(mode: Mode, code: LineCode, sent: &mut [u8])
    requires code_bound { code.0 < codes (alphabet_of mode) }
    requires code_in_bounds { length (signal mode code.0) ≤ length sent.old }
    ensures { sent.new ≡ sets sent.old 0 (signal mode code.0) }
{
    let whole = &mut sent[..signal::duration(mode, code) as usize];
    match mode {
        Mode::Baudot45 => put_baudot(BAUDOT_45_ELEMENT, code, whole),
        Mode::Baudot50 => put_baudot(BAUDOT_50_ELEMENT, code, whole),
        Mode::Dtmf => put_dtmf(code, whole),
        Mode::Edt => put_edt(code, whole),
    }
}

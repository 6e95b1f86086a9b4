// The entries of the bare Baudot conversions.
ghost use Rattle.std.specs.Prelude.{◌≡◌, length};
ghost use Rattle.baudot.specs.Entries.{sent_of, codes_after, read_of, text_after};
ghost use Rattle.baudot_sending.specs.code.Reply.{codes_reply};
ghost use Rattle.baudot_reading.specs.code.Reply.{text_reply};

use baudot::{BaudotSent, BaudotText, Sender};
use baudot_reading::Taken;
use baudot_sending::Placed;
use refusals::Refusal;

// What C gets of a sending; a refusal gives back the shift and count that were given.
fn codes_reply(outcome: Result<Placed, Refusal>, given: Sender) -> BaudotSent
    ensures { result ≡ codes_reply given outcome }
{
    match outcome {
        Ok(placed) => BaudotSent {
            answer: 0,
            shift: placed.sender.shift,
            count: placed.sender.count,
            length: placed.at,
        },
        Err(refusal) => BaudotSent {
            answer: refusal.number(),
            shift: given.shift,
            count: given.count,
            length: 0,
        },
    }
}

// What C gets of a reading; a refusal gives back the shift that was given.
fn text_reply(outcome: Result<Taken, Refusal>, given: u8) -> BaudotText
    ensures { result ≡ text_reply given outcome }
{
    match outcome {
        Ok(taken) => BaudotText {
            answer: 0,
            shift: taken.shift,
            length: taken.at,
        },
        Err(refusal) => BaudotText {
            answer: refusal.number(),
            shift: given,
            length: 0,
        },
    }
}

// Text to codes.
#[unsafe(no_mangle)]
pub extern "C" fn cq_baudot_send(text: &[u8], shift: u8, count: u8, codes: &mut [u8]) -> BaudotSent
    ensures value { result ≡ sent_of text.now shift count (length codes.old) }
    ensures codes_after { codes.new ≡ codes_after text.now shift count codes.old }
{
    let given = Sender { shift, count };
    codes_reply(baudot_sending::send(text, given, codes), given)
}

// Codes to text.
#[unsafe(no_mangle)]
pub extern "C" fn cq_baudot_read(codes: &[u8], shift: u8, text: &mut [u8]) -> BaudotText
    ensures value { result ≡ read_of codes.now shift (length text.old) }
    ensures text_after { text.new ≡ text_after codes.now shift text.old }
{
    text_reply(baudot_reading::read(codes, shift, text), shift)
}

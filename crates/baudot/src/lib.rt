// Baudot senders and readers: the definitions of both directions, and the sending rule.
#![tactic(auto)]

pub mod sending;

// A sender: its shift (0 fresh, 1 letters, 2 figures) and the characters that have gone since the last shift code.
// Hosts in C lend it with any numbers: so the shift is no enum, and its range is asked and no fact of the type.
#[repr(C)]
#[derive(Clone, Copy)]
pub struct Sender {
    pub shift: u8,
    pub count: u8,
}

// What a conversion to codes gives back to C: 0 or the number of the refusal, the shift and count reached, the codes
// written.
#[repr(C)]
#[derive(Clone, Copy)]
pub struct BaudotSent {
    pub answer: u8,
    pub shift: u8,
    pub count: u8,
    pub length: usize,
}

// What a conversion to text gives back to C: 0 or the number of the refusal, the shift reached, the characters written.
#[repr(C)]
#[derive(Clone, Copy)]
pub struct BaudotText {
    pub answer: u8,
    pub shift: u8,
    pub length: usize,
}

// Theorems on the alphabets: the sending table read back, the normal form, the numbering of DTMF codes.
#![tactic(auto)]

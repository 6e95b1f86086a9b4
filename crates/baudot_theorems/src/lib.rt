// Theorems on the Baudot conversions: what is read of what was sent, the count of 72, a text in two calls, the four
// codes.
#![tactic(auto)]

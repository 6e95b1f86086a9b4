// The C entries, for hosts in C: each lends what it is given to the function of a crate below, and says what that one
// says.
#![tactic(auto)]

pub mod calling_set;
pub mod conversions;
pub mod stations;

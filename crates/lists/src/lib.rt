// Definitions and laws on tests, lists and tables that several crates cite; the range test over a slice; places of a
// list.
#![tactic(auto)]

pub mod checks;
pub mod places;

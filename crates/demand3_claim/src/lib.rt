// Demand 3, a single claim: all its parts, the instances that are computed, and which premises are needed. No function.
#![tactic(auto)]

// Demand 3 over the send model: theorems on the model and on readers. No function.
#![tactic(auto)]

// From a text to the line and back to words: theorems on signals and readers. No function.
#![tactic(auto)]

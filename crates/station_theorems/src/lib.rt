// Theorems on every station in range: its output words, what it sends, in how many ms at most it becomes idle, and the
// edges of the frames that it reads. No function.
#![tactic(auto)]

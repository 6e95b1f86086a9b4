// What a calling set sends and chooses over any number of ms and calls: theorems. No function.
#![tactic(auto)]

// What follows from the rules of the check alone is in specs/. There is no code.
#![tactic(auto)]

// What follows from the plain machine and the rules of the check alone is in specs/: a passed table is safe, from any memory. There is no code.
#![tactic(auto)]

// Demand 3 as one theorem is in specs/Demand3.antt. There is no code.
#![tactic(auto)]

// How lent buffers hold the record as numbers and values is defined in specs/. There is no code.
#![tactic(auto)]

// How lent buffers and the run state hold the plain machine's memory is defined in specs/. There is no code.
#![tactic(auto)]

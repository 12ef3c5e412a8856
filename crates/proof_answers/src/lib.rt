// That every list of calls has answers, from any state and buffers, is proved in specs/. There is no code.
#![tactic(auto)]

// That the contracts of a scan leave one answer and one content of the state and of each buffer is proved in specs/. There is no code.
#![tactic(auto)]

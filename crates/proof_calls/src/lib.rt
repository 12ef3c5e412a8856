// A record and what is read back of it once written are run and keyed alike: in specs/. There is no code.
#![tactic(auto)]

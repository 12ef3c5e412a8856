// A record and what is read back of it once written are judged alike: in specs/. There is no code.
#![tactic(auto)]

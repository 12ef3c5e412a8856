// The marked cases of document 01 are proved in specs/Marked.antt. There is no code.
#![tactic(auto)]

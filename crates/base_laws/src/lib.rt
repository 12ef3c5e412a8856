// Laws of tests and of lists that every layer uses are in specs/. There is no code.
#![tactic(auto)]

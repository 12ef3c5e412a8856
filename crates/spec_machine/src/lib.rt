// The plain machine of document 01, its limits, the statement that a passed table keeps them, and worked runs are in specs/. There is no code.
#![tactic(auto)]

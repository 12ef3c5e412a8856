// What an entry's line says.
#![tactic(auto)]

mod line;

pub use line::read_nth;

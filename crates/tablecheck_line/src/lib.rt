// The keyed line that a fault stands on: where it starts, and how it is shown.
#![tactic(auto)]

mod keyed_line;

pub use keyed_line::{line_of, put_keyed};

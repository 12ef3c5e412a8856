// The lines that open the program and its tables, and `)`.
#![tactic(auto)]

mod opening;

pub use opening::{is_close, judge_program, judge_table};

// I and M of the program's first line.
#[derive(Clone, Copy)]
pub struct Sizes {
    pub locations: u16,
    pub sums: u16,
}

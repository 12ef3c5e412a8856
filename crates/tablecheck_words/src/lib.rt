// What is written of a pass, and of a fault's place and meaning and what is allowed there.
#![tactic(auto)]

mod advice;
mod pass;
mod place;
mod words;

use base_lines::Output;
pub use pass::put_pass;
pub use place::{put_allowed, put_meaning, put_place};

// What a table writer is told. There is room for every answer.
pub type Told = Output<20000>;

// A fault's number, and its place.
#[derive(Clone, Copy)]
pub struct Fault {
    pub number: u8,
    pub table: u8,
    pub entry: u8,
}

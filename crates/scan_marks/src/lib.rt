// The marks of a scan. A place is one number, 128 places a table; one stack of marks holds the open blocks and the calls of all frames.
#![tactic(auto)]

mod mark;
mod shift;

pub use mark::{CALLS, LOOPS, in_table, push};
pub use shift::shift_of;

// What is answered where the plain machine has no next step.
pub const NOWHERE: usize = 384;

// Blocks: a Then Do, its Else, a loop, and the End of each.
// Each function is handed the place behind an entry and answers the next place, or NOWHERE where the plain machine has no next step.
#![tactic(auto)]

mod block;

pub use block::{begin_loop, else_reached, end, then_do};

// The ranges of the numbers in a record: those that faults 2 and 5 judge.
#![tactic(auto)]

mod entry;
mod number;

pub use entry::{command_in_range, is_unconditional, measure_in_range, time_in_range};
pub use number::{header_in_range, interval_in_range, is_label, is_reps};

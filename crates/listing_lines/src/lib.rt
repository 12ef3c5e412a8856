// The lines behind a listing's text, run one after the other: readings set, and scans.
#![tactic(auto)]

mod lines;

pub use lines::{Progress, run_lines};

// Where the scan jumps to: the places behind Ends and Elses, found once a scan.
#![tactic(auto)]

mod fill;
mod way;

pub use fill::fill_ways;

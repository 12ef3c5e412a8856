// The stated counts of Tables 1 and 2.
#![tactic(auto)]

mod subs;
mod tables;

pub use tables::count_tables;

// What an entry stores in Final Storage: 70 and 77, and how a value is written.
#![tactic(auto)]

mod values;

pub use values::{sample, store_time, write_value};

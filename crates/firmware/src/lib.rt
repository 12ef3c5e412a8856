// The calls of the linkable library: the record and the state lie in buffers that the caller lends.
#![tactic(auto)]

mod checks;
mod keying;
mod listing;
mod scanning;

pub use checks::{yukeira_check_record, yukeira_check_text};
pub use keying::{yukeira_fresh, yukeira_key_flag, yukeira_key_location};
pub use listing::{yukeira_list, yukeira_next};
pub use scanning::yukeira_scan;

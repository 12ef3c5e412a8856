// The public calls. Any text, record, state, reading, clock or buffer at all may be handed to them; what cannot be taken is refused by a number of
// document 01, and then every lent buffer and the state are as before.
#![tactic(auto)]

mod checks;
mod record;

pub use checks::{check_record, check_text};
pub use logger_list::{list, next};
pub use record::{key_flag, key_location, scan};
pub use spec_calls::fresh;

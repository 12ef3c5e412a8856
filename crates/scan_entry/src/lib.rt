// What one entry of a table does: to the lent buffers, and where it leads.
#![tactic(auto)]

mod carry;

pub use carry::carry_at;

// The arrays of a ring as the listing shows them.
#![tactic(auto)]

mod shown;

pub use shown::put_listing;

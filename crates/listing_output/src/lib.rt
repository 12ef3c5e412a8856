// Bytes and numbers as the listing program prints them, written into a lent buffer behind n bytes, as far as there is room. Each function answers how
// many bytes are filled.
#![tactic(auto)]

mod number;

pub use number::{over_places, put_byte, put_figures, put_numeral};

// Lines of bytes: where they stand, what they say, and writing them.
#![tactic(auto)]

mod lines;
mod number;
mod output;
mod place;

pub use lines::{Lines, each_line};
pub use number::{from_word, leading_number, line_number, value};
pub use output::{Output, put, put_line, put_text};
pub use place::{is_close, line_end, next_line, place_of, skip_lines};

// Whether a buffer is taken, and the table that a number names.
#![tactic(auto)]

ghost use Rattle.std.specs.Prelude.{◌≡◌, ◌&&◌, eqb};
ghost use Rattle.firmware_buffers.specs.Sizes.{is_table, timed_of, tick_day};

use base_program::Timed;
use record_fields::{NUMBERS, VALUES};

// A record's buffers of n numbers and v values.
pub fn is_record(n: usize, v: usize) -> bool
    ensures { result ≡ eqb n 2385 && eqb v 594 }
{
    n == NUMBERS && v == VALUES
}

fn is_table(t: u8) -> bool
    ensures { result ≡ is_table t }
{
    (1..=2).contains(&t)
}

pub fn timed_of(t: u8) -> Timed
    ensures { result ≡ timed_of t }
{
    if t == 1 { Timed::One } else { Timed::Two }
}

// The day of a tick for this table; 0, which is none, where the table is neither 1 nor 2.
#[tactic(auto, unfolding(crate::specs::Sizes::tick_day))]
pub fn tick_day(t: u8, day: u32) -> u32
    ensures { result ≡ tick_day t day }
{
    if is_table(t) { day } else { 0 }
}

// The check of a record: it passes with the stated counts of its tables, or its first fault and place are named.
#![tactic(auto)]

mod lent;

ghost use Rattle.std.specs.Prelude.{◌≡◌};
ghost use Rattle.spec_check.specs.Check.{check};

use base_program::Program;
pub use lent::{check_lent, judge_lent};
use spec_check::Verdict;

// Any record at all: it is written into buffers of this call.
pub fn check_record(p: Program) -> Verdict
    ensures { result ≡ check p }
{
    let mut numbers = [0u16; 2385];
    let mut values = [0.0f32; 594];
    record_writer::write_record(p, &mut numbers, &mut values);
    check_lent(&numbers, &values)
}

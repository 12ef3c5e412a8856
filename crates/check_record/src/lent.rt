// The check of a record that lies in lent buffers.
ghost use Rattle.std.specs.Prelude.{◌≡◌, ℕ, length, get_or};
ghost use Rattle.spec_check.specs.Check.{check};
ghost use Rattle.record_layout.specs.Layout.{record_of};
ghost use Rattle.check_walks.specs.Walked.{VerdictFound};

use base_program::Finding;
use check_walks::judge_rest;
use record_fields::lengths_of;
use spec_check::Verdict;

// Any record at all that buffers of these lengths hold. Of one that passes, the control-flow kind of each entry, the sums that it takes and where
// each subroutine begins are found too.
pub fn judge_lent(
    numbers: &[u16],
    values: &[f32],
    codes: &mut [u32],
    taken: &mut [u8],
    starts: &mut [u8],
) -> Verdict
    requires { (length numbers.now ≡ 2385) × (length values.now ≡ 594) × (length codes.old ≡ 297) × (length taken.old ≡ 297) × (length starts.old ≡ 256) × ((k : ℕ) → get_or starts.old k 0 ≡ 0) }
    ensures { VerdictFound (record_of numbers.now values.now) codes.new taken.new starts.new result }
{
    let mut needs = [0u32; 297];
    let ranges = check_ranges::walk_ranges(
        numbers,
        values,
        &mut codes[..],
        &mut taken[..],
        &mut needs,
    );
    if let Finding::Fault(number, table, entry) = ranges {
        return Verdict::Fault(number, table, entry);
    }
    judge_rest(
        lengths_of(numbers),
        numbers[0],
        numbers[1],
        &codes[..],
        &taken[..],
        &needs,
        &mut starts[..],
    )
}

// The verdict alone.
pub fn check_lent(numbers: &[u16], values: &[f32]) -> Verdict
    requires { (length numbers.now ≡ 2385) × (length values.now ≡ 594) }
    ensures { result ≡ check (record_of numbers.now values.now) }
{
    let mut codes = [0u32; 297];
    let mut taken = [0u8; 297];
    let mut starts = [0u8; 256];
    judge_lent(numbers, values, &mut codes, &mut taken, &mut starts)
}

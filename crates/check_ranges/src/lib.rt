// The first walk of the check: numbers outside their range, intervals, and an entry 100 (faults 2, 5 and 6).
// It reads the program's own line, then each table's first line, its entries and a 100th.
#![tactic(auto)]

ghost use Rattle.std.specs.Prelude.{◌≡◌, [], ◌∷◌, length};
ghost use Rattle.record_layout.specs.Layout.{interval_of, record_of};
ghost use Rattle.check_ranges.specs.Walked.{RangesWalked, interval_at};

use base_program::{Finding, fault_at};
use check_entry::facts_at;
use check_numbers::{header_in_range, interval_in_range};
use record_codes::entries_in_use;
use record_fields::{interval_at, length_at};

// V of the table of row t; Table 3 has none.
fn interval_of(numbers: &[u16], t: usize) -> u32
    requires { length numbers.now ≡ 2385 }
    ensures { result ≡ interval_at (interval_of numbers.now 2 ∷ interval_of numbers.now 4 ∷ []) t }
{
    match t {
        0 => interval_at(numbers, 2),
        1 => interval_at(numbers, 4),
        _ => 0,
    }
}

// The first of the faults 2, 5 and 6 of the record that the buffers hold. Where there is none, the later walks are lent each entry's control-flow
// kind, its sums and what it needs of I.
pub fn walk_ranges(
    numbers: &[u16],
    values: &[f32],
    codes: &mut [u32],
    sums: &mut [u8],
    needs: &mut [u32],
) -> Finding
    requires { (length numbers.now ≡ 2385) × (length values.now ≡ 594) × (length codes.old ≡ 297) × (length sums.old ≡ 297) × (length needs.old ≡ 297) }
    ensures { RangesWalked (record_of numbers.now values.now) codes.new sums.new needs.new result }
{
    let most = numbers[0];
    if !header_in_range(most, numbers[1]) {
        return Finding::Fault(2, 0, 0);
    }
    'tables: for t in 0..3 {
        if !interval_in_range(t, interval_of(numbers, t)) {
            return fault_at(5, t, 0);
        }
        let claimed = length_at(numbers, t);
        let n = entries_in_use(claimed);
        'entries: for e in 0..n {
            let at = 99 * t + e;
            let known = facts_at(numbers, values, at, most);
            if !known.fits {
                return fault_at(2, t, e + 1);
            }
            codes[at] = known.code;
            sums[at] = known.taken;
            needs[at] = known.need;
        }
        if claimed > 99 {
            return fault_at(6, t, 100);
        }
    }
    Finding::Clean
}

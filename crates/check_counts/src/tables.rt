// The stated counts of Tables 1 and 2.
ghost use Rattle.std.specs.Prelude.{◌≡◌, ◌≤◌, length, get_or};
ghost use Rattle.base_program.specs.declared.Program.{Program};
ghost use Rattle.base_program.specs.declared.Table.{Table};
ghost use Rattle.spec_check.specs.Counts.{stated_count};
ghost use Rattle.record_codes.specs.Loaded.{Sizes};
ghost use Rattle.check_subroutines.specs.Listed.{ListedCalls};
ghost use Rattle.check_count.specs.Saturate.{sat};
ghost use Rattle.check_counts.specs.Tables.{CountsReady, TablesCounted};

use crate::subs;
use check_count::count_from;
use check_subroutines::CallList;
use check_verdict::TableCounts;

// Of the entries' kinds, the tables' lengths, where subroutines begin, their chains, and the list of Table 3's 85s and calls.
pub fn count_tables(
    codes: &[u32],
    lengths: [u8; 3],
    starts: &[u8],
    heights: &[u8],
    calls: &CallList,
) -> TableCounts
    requires { Sizes codes.now lengths × ((length starts.now ≡ 256) × (length heights.now ≡ 256)) × (ListedCalls codes.now calls.now.places calls.now.count × (get_or calls.now.places 0 0 ≡ get_or lengths 2 0)) }
    ensures { (p : Program) → CountsReady p codes.now lengths starts.now heights.now → TablesCounted p result.first result.second }
{
    let mut adds = [0u16; 256];
    let mut factors = [0u16; 101];
    let one = lengths[0] as usize;
    let two = lengths[1] as usize;
    subs::count_subs(codes, calls, starts, heights, &mut adds, &mut factors);
    let first = count_from(codes, 0, 0, one, &adds, &mut factors);
    let second = count_from(codes, 99, 0, two, &adds, &mut factors);
    TableCounts {
        first: first as u32,
        second: second as u32,
    }
}

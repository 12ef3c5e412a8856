// The walks behind the first: faults 10 to 22, or a pass.
#![tactic(auto)]

ghost use Rattle.std.specs.Prelude.{◌≡◌, ℕ, length, get_or};
ghost use Rattle.base_program.specs.declared.Program.{Program};
ghost use Rattle.record_codes.specs.Loaded.{Sizes, SubsAre};
ghost use Rattle.check_walks.specs.Walked.{WalkLent, WalksKnow, Ranged, CallsWalked, VerdictFound};

use base_program::Finding;
use check_subroutines::CallList;
use check_verdict::judge_counts;
use spec_check::Verdict;

// The walks of faults 10 to 20, over what the first walk has lent, where subroutines begin, and where 85s and calls stand.
fn walk_calls(
    lengths: [u8; 3],
    most: u16,
    codes: &[u32],
    needs: &[u32],
    starts: &[u8],
    calls: &CallList,
    heights: &mut [u8],
) -> Finding
    requires { WalkLent lengths codes.now needs.now starts.now calls.now.places calls.now.count heights.old }
    ensures { (p : Program) → WalksKnow p lengths most codes.now needs.now → SubsAre p starts.now → CallsWalked p heights.new result }
{
    let structure = check_blocks::walk_blocks(codes, lengths, starts);
    let Finding::Clean = structure else {
        return structure;
    };
    let reach = check_calls::walk_reach(lengths, most, codes, needs, starts);
    let Finding::Clean = reach else {
        return reach;
    };
    check_chains::walk_chains(codes, calls, &mut heights[..])
}

// What comes behind the first walk: of lengths, I, M and what that walk has lent.
pub fn judge_rest(
    lengths: [u8; 3],
    most: u16,
    limit: u16,
    codes: &[u32],
    taken: &[u8],
    needs: &[u32],
    starts: &mut [u8],
) -> Verdict
    requires { Sizes codes.now lengths × (length taken.now ≡ 297) × (length needs.now ≡ 297) × (length starts.old ≡ 256) × ((k : ℕ) → get_or starts.old k 0 ≡ 0) }
    ensures { (p : Program) → Ranged p lengths most limit codes.now taken.now needs.now → VerdictFound p codes.now taken.now starts.new result }
{
    let mut heights = [0u8; 256];
    let three = lengths[2] as usize;
    let calls = check_subroutines::fill_subs(codes, three, &mut starts[..]);
    let structure = walk_calls(
        lengths,
        most,
        codes,
        needs,
        &starts[..],
        &calls,
        &mut heights,
    );
    if let Finding::Fault(number, table, entry) = structure {
        return Verdict::Fault(number, table, entry);
    }
    let handed_out = check_sums::walk_sums(taken, lengths, limit);
    if let Finding::Fault(number, table, entry) = handed_out {
        return Verdict::Fault(number, table, entry);
    }
    judge_counts(check_counts::count_tables(codes, lengths, &starts[..], &heights, &calls))
}

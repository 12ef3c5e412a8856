// The verdict of the stated counts: fault 22, or a pass.
#![tactic(auto)]

ghost use Rattle.std.specs.Prelude.{◌≡◌};
ghost use Rattle.check_verdict.specs.Verdict.{count_verdict};

use spec_check::Verdict;

// Each count, or 60,001 where it is more.
#[derive(Clone, Copy)]
pub struct TableCounts {
    pub first: u32,
    pub second: u32,
}

pub fn judge_counts(c: TableCounts) -> Verdict
    ensures { result ≡ count_verdict c.first c.second }
{
    let first = c.first;
    let second = c.second;
    if 60000 < first {
        return Verdict::Fault(22, 1, 0);
    }
    if 60000 < second {
        return Verdict::Fault(22, 2, 0);
    }
    Verdict::Pass(first, second)
}

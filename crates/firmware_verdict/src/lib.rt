// A verdict in document 01's five numbers.
#![tactic(auto)]

ghost use Rattle.std.specs.Prelude.{true};
ghost use Rattle.firmware_verdict.specs.Told.{VerdictTold};

use spec_check::Verdict;

#[tactic(auto, unfolding(spec_check::specs::Check::answer_of))]
pub fn put_verdict(
    v: Verdict,
    table: &mut u8,
    entry: &mut u8,
    first: &mut u32,
    second: &mut u32,
) -> u8
    ensures { VerdictTold true v table.old entry.old first.old second.old result table.new entry.new first.new second.new }
{
    match v {
        Verdict::Pass(a, b) => {
            *table = 0;
            *entry = 0;
            *first = a;
            *second = b;
            0
        }
        Verdict::Fault(n, t, e) => {
            *table = t;
            *entry = e;
            *first = 0;
            *second = 0;
            n
        }
    }
}

// 3, 'no such instruction', of a record in lent buffers: a slot whose number is none of document 01's.
#![tactic(auto)]

ghost use Rattle.std.specs.Prelude.{◌≡◌, length};
ghost use Rattle.check_known.specs.Laid.{is_instruction};
ghost use Rattle.check_known.specs.ByNumber.{by_number};

use spec_check::Verdict;

// One of document 01's numbers of an instruction.
#[tactic(auto, unfolding(crate::specs::Laid::is_instruction))]
fn is_instruction(n: u16) -> bool
    ensures { result ≡ is_instruction n }
{
    matches!(n, 1..=2 | 30..=38 | 70..=74 | 77 | 85..=89 | 91..=92 | 94..=95)
}

// The verdict of the record that lies there, by the number of the slot that it names.
#[tactic(auto, unfolding(crate::specs::ByNumber::by_number, crate::specs::ByNumber::is_three))]
pub fn by_number(numbers: &[u16], v: Verdict) -> Verdict
    requires { length numbers.now ≡ 2385 }
    ensures { result ≡ by_number numbers.now v }
{
    match v {
        Verdict::Fault(2, t @ 1..=3, e @ 1..=99) => {
            let at = 9 + 8 * (99 * (usize::from(t) - 1) + (usize::from(e) - 1));
            if is_instruction(numbers[at]) {
                v
            } else {
                Verdict::Fault(3, t, e)
            }
        }
        _ => v,
    }
}

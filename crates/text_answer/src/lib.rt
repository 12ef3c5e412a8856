// What the check of a keyed text answers.
#![tactic(auto)]

ghost use Rattle.std.specs.Prelude.{◌≡◌};
ghost use Rattle.text_answer.specs.Check.{answered};

use base_program::Program;
use spec_check::Verdict;

// The verdict; with a pass the record of the text, else the empty record.
#[derive(Clone, Copy)]
pub struct TextAnswer {
    pub verdict: Verdict,
    pub program: Program,
}

pub fn answer_of(v: Verdict, p: Program) -> TextAnswer
    ensures { result ≡ answered v p }
{
    match v {
        Verdict::Pass(first, second) => TextAnswer {
            verdict: Verdict::Pass(first, second),
            program: p,
        },
        Verdict::Fault(number, table, entry) => TextAnswer {
            verdict: Verdict::Fault(number, table, entry),
            program: base_program::empty_program(),
        },
    }
}

// What a table writer is told of a keyed text: a pass with its figures, or the fault, the line that it stands on and what is allowed there.
#![tactic(auto)]

mod fault;

ghost use Rattle.std.specs.Prelude.{◌≤◌, length};

use spec_check::Verdict;
use tablecheck_words::{Fault, Told, put_pass};

fn tell(out: &mut Told, s: &[u8]) {
    let answer = text_check::check_text(s);
    match answer.verdict {
        Verdict::Pass(first, second) => put_pass(out, first, second, &answer.program),
        Verdict::Fault(number, table, entry) => fault::tell(
            out,
            Fault {
                number,
                table,
                entry,
            },
            s,
        ),
    }
}

// What is told of the text s.
pub fn told(s: &[u8]) -> Told
    ensures { length result ≤ 20000 }
{
    let mut out = Told::new();
    tell(&mut out, s);
    prove!(out.as_slice().len() <= 20000);
    out
}

// What is told of the text s, at the start of `out`, as far as there is room; answers its length. A buffer of 20,000 bytes has room for all.
pub fn answer_text(s: &[u8], out: &mut [u8]) -> usize
    ensures { result ≤ length out.old }
{
    let mut answer = Told::new();
    tell(&mut answer, s);
    base_lines::put_text(answer.as_slice(), out, 0)
}

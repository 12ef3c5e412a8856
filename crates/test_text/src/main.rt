// Reads a list of cases, checks the text of each and the records that its last lines make of it, and prints each verdict on a line.
#![tactic(auto)]

mod record;

use base_program::Program;
use spec_check::Verdict;
use std::io;
use test_cases::each_case;

// A text's verdict; the record of a text that passes is checked too, and both must pass with the same counts.
fn text_verdict(rt: &impl Print, v: Verdict, p: Program) -> io::Result<()> {
    test_cases::verdict(rt, v)?;
    if let Verdict::Pass(first, second) = v {
        match check_record::check_record(p) {
            Verdict::Pass(third, fourth) if first == third && second == fourth => print!(rt;
                " same"
            )?,
            _ => print!(rt; " differs")?,
        }
    }
    println!(rt;)
}

fn main(rt: HostRuntime) -> io::Result<()> {
    let mut input = [0u8; 200000];
    let n = base_input::read_whole(&mut rt.stdin(), &mut input)?;
    for case in each_case(&input[..n]) {
        let answer = text_check::check_text(test_cases::text_of(case).as_slice());
        test_cases::name(&rt, case)?;
        text_verdict(&rt, answer.verdict, answer.program)?;
        record::run(&rt, case, answer.program)?;
    }
    Ok(())
}

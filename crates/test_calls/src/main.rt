// Reads a list of cases, makes the calls of each on the record of its text, and prints after each call its answer and all
// that it was lent. The lines of a call:
//   @lend A B C D E      the lengths lent from here on: locations, sums, counts, readings, ring; at first I, M, 297, 196 and 64
//   @put KIND ..         changes the state or a buffer (crate `test_lent`)
//   @run T DAY TIME      a scan of Table T
//   @key N V             a location is keyed; V and all floats are the 8 hexadecimal digits of their bits
//   @invert F            a flag is keyed
//   @show K J            the listing's item J of array K
//   @alter T E           entry E of Table T is a 95 from here on, and the record is checked
// and a line `@#` is a comment.
#![tactic(auto)]

use base_lines::each_line;
use std::io;
use test_cases::each_case;
use test_lent::Run;

// The calls of a case, from fresh.
fn run_case(rt: &impl Print, case: &[u8]) -> io::Result<()> {
    let answer = logger::check_text(test_cases::text_of(case).as_slice());
    test_cases::name(rt, case)?;
    test_cases::verdict(rt, answer.verdict)?;
    println!(rt;)?;
    let mut p = answer.program;
    let mut run = Run::new(&p);
    for line in each_line(case) {
        test_call::step(rt, line, &mut p, &mut run)?;
    }
    Ok(())
}

fn main(rt: HostRuntime) -> io::Result<()> {
    let mut input = [0u8; 200000];
    let n = base_input::read_whole(&mut rt.stdin(), &mut input)?;
    for case in each_case(&input[..n]) {
        run_case(&rt, case)?;
    }
    Ok(())
}

// Reads a keyed text on standard input and writes what its writer has to know: a pass with its figures, or the fault.
// Of a text over 16,384 bytes the first 16,385 are read, which shows that it is too long. A read or a write that fails is said on standard error
// with the system's reason, and nothing is told of a text that was not read to its end.
#![tactic(auto)]

use std::io;

fn main(rt: HostRuntime) -> io::Result<()> {
    let mut input = [0u8; 16385];
    let mut output = [0u8; 20000];
    let n = base_input::read_whole(&mut rt.stdin(), &mut input)?;
    let m = tablecheck_answer::answer_text(&input[..n], &mut output);
    rt.write_all(&output[..m])
}

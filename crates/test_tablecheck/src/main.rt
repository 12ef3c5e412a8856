// Reads a list of cases and writes, for each, its name and what the writer of its text is told.
#![tactic(auto)]

use base_lines::each_line;
use std::io;
use test_cases::{Text, each_case};

fn main(rt: HostRuntime) -> io::Result<()> {
    let mut input = [0u8; 65536];
    let mut text = Text::new();
    let mut output = [0u8; 20000];
    let n = base_input::read_whole(&mut rt.stdin(), &mut input)?;
    for case in each_case(&input[..n]) {
        test_cases::put_case(&mut text, case);
        rt.write_all(each_line(case).next().unwrap_or(&[]))?;
        rt.write_all(b"\n")?;
        let m = tablecheck_answer::answer_text(text.as_slice(), &mut output);
        rt.write_all(&output[..m])?;
    }
    Ok(())
}

// Reads lines `whole TEXT`, `location TEXT` and `fixed TEXT`, and prints each with what its text says. A line with `#` is a remark.
#![tactic(auto)]

mod show;

use base_lines::each_line;
use std::io;

fn main(rt: HostRuntime) -> io::Result<()> {
    let mut input = [0u8; 4096];
    let n = base_input::read_whole(&mut rt.stdin(), &mut input)?;
    for line in each_line(&input[..n]) {
        show::case(&rt, line)?;
    }
    Ok(())
}

// The listing program: on standard input a keyed text, then readings and ticks; on standard output the whole arrays at the input's end, or the
// first refusal. Where a read fails it prints nothing; that, or a write that fails, is said on standard error with the system's reason.
#![tactic(auto)]

use std::io;

fn main(rt: HostRuntime) -> io::Result<()> {
    let mut output = [0u8; 512];
    let n = listing_run::answer(&mut rt.stdin(), &mut output)?;
    rt.write_all(&output[..n])
}

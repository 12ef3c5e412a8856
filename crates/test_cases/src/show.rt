// Printing.
use base_lines::{each_line, from_word};
use spec_check::Verdict;
use std::io;

// The second word of the first line of s, to the line's end.
pub fn name(rt: &impl Print, s: &[u8]) -> io::Result<()> {
    let first = each_line(s).next().unwrap_or(&[]);
    rt.write_all(from_word(first, 1))
}

// `pass` and the counts, or `E`, number, table and entry. (`Display` stands with its type, and crate `spec_check` prints nothing.)
pub fn verdict(rt: &impl Print, v: Verdict) -> io::Result<()> {
    match v {
        Verdict::Pass(first, second) => print!(rt; " pass {first} {second}"),
        Verdict::Fault(number, table, entry) => print!(rt; " E {number} {table} {entry}"),
    }
}

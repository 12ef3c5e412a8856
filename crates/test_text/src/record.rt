// A case's record, changed line by line (crate `test_records`); `@record NAME` checks the record so far.
use base_lines::each_line;
use base_program::Program;
use std::io;

pub fn run(rt: &impl Print, case: &[u8], p: Program) -> io::Result<()> {
    let mut r = p;
    for line in each_line(case) {
        if test_cases::kind_of(line) == Some(b'r') {
            test_cases::name(rt, line)?;
            test_cases::verdict(rt, check_record::check_record(r))?;
            println!(rt;)?;
        }
        r = test_records::changed(r, line);
    }
    Ok(())
}

// A text that passes: the stated counts, and what I and M hold.
use crate::Told;
use crate::words::{put_counted, put_number};
use base_program::Program;

// All sums that the entries of the three tables take.
fn sums_taken(p: &Program) -> u32 {
    let mut total = 0;
    for (k, slot) in p.slots.iter().enumerate() {
        if k % 99 < usize::from(p.lengths[k / 99]) {
            total += u32::from(base_program::sums_of(slot.instruction));
        }
    }
    total
}

// What I and M hold.
fn put_sizes(out: &mut Told, p: &Program) {
    put_counted(
        out,
        b"I holds ",
        u64::from(p.locations),
        b" Input Locations",
    );
    out.text(b"M holds ");
    put_number(out, u64::from(p.sums));
    put_counted(
        out,
        b" Intermediate sums, ",
        u64::from(sums_taken(p)),
        b" taken",
    );
}

// The lines of a pass.
pub fn put_pass(out: &mut Told, first: u32, second: u32, p: &Program) {
    out.line(b"pass");
    put_counted(
        out,
        b"Table 1 carries out at most ",
        u64::from(first),
        b" of 60000 entries a scan",
    );
    put_counted(
        out,
        b"Table 2 carries out at most ",
        u64::from(second),
        b" of 60000 entries a scan",
    );
    put_sizes(out, p);
}

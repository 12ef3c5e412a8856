// The place of a fault, its meaning, and what is allowed there.
ghost use Rattle.std.specs.Prelude.{◌≤◌, length};

use crate::words::{put_counted, put_number};
use crate::{Fault, Told, advice};

// `E`, number, table and entry.
pub fn put_place(out: &mut Told, fault: Fault) {
    out.text(b"E ");
    put_number(out, u64::from(fault.number));
    out.text(b" ");
    put_number(out, u64::from(fault.table));
    put_counted(out, b" ", u64::from(fault.entry), b"");
}

pub fn put_meaning(out: &mut Told, fault: Fault) {
    out.line(advice::meaning(fault.number).as_bytes());
}

// I for fault 20, M for fault 21, as the first line has them.
fn put_size(out: &mut Told, number: u8, s: &[u8]) {
    match number {
        20 => put_counted(out, b"I is ", base_lines::value(s, 1), b"."),
        21 => put_counted(out, b"M is ", base_lines::value(s, 2), b"."),
        _ => {}
    }
}

// The form of the line's instruction.
fn put_own_form(out: &mut Told, line: &[u8]) {
    let Some((_, rest)) = line.split_first() else {
        return;
    };
    if let Some(form) = advice::form(base_lines::leading_number(rest)) {
        out.line(form.as_bytes());
    }
}

// What is allowed at the line that starts at `at`; its form is told where one of its parameters is at fault.
pub fn put_allowed(out: &mut Told, fault: Fault, s: &[u8], at: usize)
    requires { at ≤ length s.now }
{
    out.line(advice::rule(fault).as_bytes());
    put_size(out, fault.number, s);
    if fault.entry != 0 && matches!(fault.number, 2 | 4 | 15 | 18 | 20 | 21) {
        put_own_form(out, &s[at..base_lines::line_end(s, at)]);
    }
}

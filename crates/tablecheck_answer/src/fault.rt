// A text at fault: number and place, what the fault means, the line, and what is allowed there.
use tablecheck_line::{line_of, put_keyed};
use tablecheck_words::{Fault, Told, put_allowed, put_meaning, put_place};

pub fn tell(out: &mut Told, fault: Fault, s: &[u8]) {
    put_place(out, fault);
    if 16384 < s.len() {
        return out.line(b"The text is longer than 16384 bytes.");
    }
    put_meaning(out, fault);
    let at = line_of(s, usize::from(fault.table), usize::from(fault.entry));
    put_keyed(out, s, at);
    put_allowed(out, fault, s, at);
}

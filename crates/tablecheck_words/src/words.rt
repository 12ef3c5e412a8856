// Numbers among words.
use crate::Told;
use itoa::Buffer;

// The decimal digits of k.
pub fn put_number(out: &mut Told, k: u64) {
    let mut digits = Buffer::new();
    out.text(digits.format(k).as_bytes());
}

// Words, a number, and words with a line's end.
pub fn put_counted(out: &mut Told, before: &[u8], k: u64, behind: &[u8]) {
    out.text(before);
    put_number(out, k);
    out.line(behind);
}

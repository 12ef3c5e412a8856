// Lists of cases in a compact form. A line `@case NAME` begins a case, and its other lines make its text:
// `@times N` has the next line N times, `@byte N` is the byte N, `@drop` leaves out the last byte so far,
// `@fill N` adds bytes `x` up to N bytes, `@open T I M` begins a program up to Table T's first line, the tables so far empty and
// not run, `@end T` ends it from Table T's `)` on in the same way, other lines with `@` are the caller's, and any other line is
// taken as it stands.
#![tactic(auto)]

mod cases;
mod show;

ghost use Rattle.std.specs.Prelude.{◌≤◌, length};

use base_lines::{Output, each_line, from_word, value};
pub use cases::{Cases, each_case};
pub use show::{name, verdict};

// A case's text.
pub type Text = Output<16400>;

// The first letter of an `@` line. A byte 0 is none.
pub fn kind_of(line: &[u8]) -> Option<u8> {
    match line {
        [b'@', kind, ..] if *kind != 0 => Some(*kind),
        _ => None,
    }
}

// Bytes `x` until there are `upto` bytes.
fn fill(out: &mut Text, upto: u64) {
    for _ in out.as_slice().len() as u64..upto.min(16400) {
        out.put(b'x');
    }
}

// From the `)` of Table `from` on, up to the first line of Table `upto` or, where that is 4, the end.
fn put_tables(out: &mut Text, from: u64, upto: u64) {
    for t in from..upto {
        match t {
            1 => out.line(b")\n(table 2 0"),
            2 => out.line(b")\n(table 3"),
            _ => out.line(b")\n)"),
        }
    }
}

// Up to Table t's first line, with the I and M of the line.
fn put_open(out: &mut Text, line: &[u8]) {
    out.text(b"(program ");
    out.line(from_word(line, 2));
    out.line(b"(table 1 0");
    put_tables(out, 1, value(line, 1));
}

// What one line adds.
fn add_line(out: &mut Text, line: &[u8], times: u64) {
    match kind_of(line) {
        None => {
            for _ in 0..times {
                out.line(line);
            }
        }
        Some(b'b') => out.put((value(line, 1) % 256) as u8),
        Some(b'f') => fill(out, value(line, 1)),
        Some(b'o') => put_open(out, line),
        Some(b'e') => put_tables(out, value(line, 1), 4),
        Some(b'd') => out.pop(),
        Some(_) => {}
    }
}

// How often the line behind this one is taken.
fn times_next(line: &[u8]) -> u64 {
    match kind_of(line) {
        Some(b't') => value(line, 1),
        _ => 1,
    }
}

// The text of a case, as far as there is room, in place of what was there.
pub fn put_case(out: &mut Text, case: &[u8])
    ensures { length out.new ≤ 16400 }
{
    out.clear();
    let mut times = 1;
    for line in each_line(case) {
        add_line(out, line, times);
        times = times_next(line);
    }
    prove!(out.as_slice().len() <= 16400);
}

// The text of a case, as far as there is room.
pub fn text_of(case: &[u8]) -> Text
    ensures { length result ≤ 16400 }
{
    let mut out = Text::new();
    put_case(&mut out, case);
    out
}

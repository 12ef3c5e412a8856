// Prints a case and what its text says, on a line.
use std::io;

fn text(rt: &impl Print, b: &[u8]) -> io::Result<()> {
    rt.write_all(b)
}

fn decimal(rt: &impl Print, n: u32) -> io::Result<()> {
    print!(rt; "{n}")
}

// The eight hexadecimal digits.
fn pattern(rt: &impl Print, n: u32) -> io::Result<()> {
    print!(rt; "{n:08x}")
}

// The number, or that there is none.
fn whole(rt: &impl Print, s: &[u8]) -> io::Result<()> {
    match text_number::read_whole(s) {
        Some(n) => decimal(rt, n),
        None => text(rt, b"malformed"),
    }
}

// The number, with `--` where the location is indexed.
fn location(rt: &impl Print, s: &[u8]) -> io::Result<()> {
    match text_number::read_location(s) {
        Some(l) => {
            decimal(rt, l.number)?;
            if l.indexed { text(rt, b" --") } else { Ok(()) }
        }
        None => text(rt, b"malformed"),
    }
}

// The value's bit pattern, in hexadecimal.
fn fixed(rt: &impl Print, s: &[u8]) -> io::Result<()> {
    match text_fixed::read_fixed(s) {
        Some(x) => pattern(rt, f32::to_bits(x)),
        None => text(rt, b"malformed"),
    }
}

// The first letter says what the text is read as.
fn said(rt: &impl Print, kind: u8, s: &[u8]) -> io::Result<()> {
    match kind {
        b'w' => whole(rt, s),
        b'l' => location(rt, s),
        b'f' => fixed(rt, s),
        _ => text(rt, b"?"),
    }
}

pub fn case(rt: &impl Print, line: &[u8]) -> io::Result<()> {
    if line.len() < 1 {
        return Ok(());
    }
    if line[0] == b'#' {
        return Ok(());
    }
    text(rt, line)?;
    text(rt, b" -> ")?;
    said(rt, line[0], base_lines::from_word(line, 1))?;
    text(rt, b"\n")
}

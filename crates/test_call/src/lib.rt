// The call of the logger that a line tells, and what it leaves, printed.
#![tactic(auto)]

use base_lines::{from_word, value};
use base_program::Program;
use std::io;
use test_lent::{Run, float_at, number, table_of};

// As many places as are wanted and there.
fn within<T>(s: &mut [T], wanted: usize) -> &mut [T] {
    let n = wanted.min(s.len());
    &mut s[..n]
}

// `@run T DAY TIME`
fn scan(rt: &impl Print, line: &[u8], p: Program, r: &mut Run) -> io::Result<()> {
    let answer = logger::scan(
        p,
        table_of(line),
        number(line, 2),
        number(line, 3),
        r.state,
        within(&mut r.readings, r.lent.readings),
        within(&mut r.locations, r.lent.locations),
        within(&mut r.sums, r.lent.sums),
        within(&mut r.counts, r.lent.counts),
        within(&mut r.ring, r.lent.ring),
    );
    r.state = answer.state;
    print!(rt; "run")?;
    r.print(rt, answer.refusal)
}

// `@key N V`
fn key(rt: &impl Print, line: &[u8], p: Program, r: &mut Run) -> io::Result<()> {
    let v = float_at(from_word(line, 2));
    let refusal = logger::key_location(
        p,
        number(line, 1),
        v,
        within(&mut r.locations, r.lent.locations),
    );
    print!(rt; "key")?;
    r.print(rt, refusal)
}

// `@invert F`
fn invert(rt: &impl Print, line: &[u8], p: Program, r: &mut Run) -> io::Result<()> {
    let answer = logger::key_flag(p, (value(line, 1) % 256) as u8, r.state);
    r.state = answer.state;
    print!(rt; "invert")?;
    r.print(rt, answer.refusal)
}

// `@show K J`
fn list(rt: &impl Print, line: &[u8], r: &Run) -> io::Result<()> {
    let n = r.lent.ring.min(r.ring.len());
    let item = logger::list(
        r.state,
        &r.ring[..n],
        value(line, 1) as usize,
        value(line, 2) as usize,
    );
    print!(rt; "show")?;
    test_lent::item(rt, item)
}

// `@alter T E`
fn alter(rt: &impl Print, line: &[u8], p: &mut Program) -> io::Result<()> {
    *p = test_records::put(*p, line);
    print!(rt; "alter")?;
    test_cases::verdict(rt, logger::check_record(*p))?;
    println!(rt;)
}

// What a line calls or changes.
pub fn step(rt: &impl Print, line: &[u8], p: &mut Program, r: &mut Run) -> io::Result<()> {
    match test_cases::kind_of(line) {
        Some(b'l') => r.lent.set(line),
        Some(b'p') => r.put(line),
        Some(b'a') => alter(rt, line, p)?,
        Some(b'r') => scan(rt, line, *p, r)?,
        Some(b'k') => key(rt, line, *p, r)?,
        Some(b'i') => invert(rt, line, *p, r)?,
        Some(b's') => list(rt, line, r)?,
        _ => {}
    }
    Ok(())
}

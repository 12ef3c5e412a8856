// The keyed line of a place, and what it says.
ghost use Rattle.std.specs.Prelude.{◌≡◌, ◌≤◌, length, drop};
ghost use Rattle.base_lines.specs.Line.{from_place};

use base_lines::Output;
use spec_check::Verdict;

// A byte as it is shown: `?` for one that is not printable ASCII.
fn shown(b: u8) -> u8 {
    match b {
        b' '..=b'~' => b,
        _ => b'?',
    }
}

// The line that starts at `at`, or that the text ends there.
pub fn put_keyed<const N: usize>(out: &mut Output<N>, s: &[u8], at: usize)
    requires { at ≤ length s.now }
{
    if at == s.len() {
        return out.line(b"The text ends where this line would stand.");
    }
    let e = base_lines::line_end(s, at);
    out.text(b"> ");
    for b in &s[at..e] {
        out.put(shown(*b));
    }
    out.put(b'\n');
    if e == s.len() {
        out.line(b"The text ends within this line: no byte 10 ends it.");
    }
}

// The program's first line is sound: with nothing behind it, what is missing is Table 1.
fn is_begun(s: &[u8]) -> bool {
    if s.is_empty() {
        return false;
    }
    let answer = text_check::check_text(&s[..base_lines::next_line(s, 0)]);
    matches!(answer.verdict, Verdict::Fault(_, 1, _))
}

// Where the line of a place starts, or the end of the text.
pub fn line_of(s: &[u8], table: usize, entry: usize) -> usize
    ensures { (result ≤ length s.now) × ((1 ≤ table) → drop result s.now ≡ from_place table entry s.now) }
{
    tablecheck_place::line_of_place(s, is_begun(s), table, entry)
}

// Where lines stand.
ghost use Rattle.std.specs.Prelude.{◌≡◌, ◌<◌, ◌≤◌, ◌-◌, ◌==◌, not, length, drop, take_while};
ghost use Rattle.base_lines.specs.Line.{ending, behind, behind_lines, behind_closes, from_place, is_close, Stands};

// How long the line is that s begins with.
pub fn line_len(s: &[u8]) -> usize
    ensures { result ≡ length (take_while (λ b. not (b == 10)) s.now) }
{
    s.iter().take_while(|b| **b != b'\n').count()
}

// Where the line that starts at `at` ends: at its byte 10, or where s ends.
pub fn line_end(s: &[u8], at: usize) -> usize
    requires { at ≤ length s.now }
    ensures { Stands s.now at result (ending (drop at s.now)) }
{
    at + line_len(&s[at..])
}

// Where the next line starts.
pub fn next_line(s: &[u8], at: usize) -> usize
    requires { at < length s.now }
    ensures { Stands s.now at result (behind (drop at s.now)) × (at < result) }
{
    let e = line_end(s, at);
    if e < s.len() { e + 1 } else { e }
}

// The line that starts at `at` is `)`.
pub fn is_close(s: &[u8], at: usize) -> bool
    requires { at ≤ length s.now }
    ensures { result ≡ is_close (drop at s.now) }
{
    s[at..].starts_with(b")\n")
}

// Behind n lines.
pub fn skip_lines(s: &[u8], at: usize, n: usize) -> usize
    requires { at ≤ length s.now }
    ensures { Stands s.now at result (behind_lines n (drop at s.now)) }
{
    let mut i = at;
    for _ in 0..n {
        if i == s.len() {
            break;
        }
        i = next_line(s, i);
    }
    i
}

// Behind the next k lines `)`, looking at 400 lines.
fn skip_closes(s: &[u8], at: usize, k: usize) -> usize
    requires { at ≤ length s.now }
    ensures { Stands s.now at result (behind_closes 400 k (drop at s.now)) }
{
    let mut i = at;
    let mut closes = k;
    for _ in 0..400usize {
        if closes == 0 || i == s.len() {
            break;
        }
        if is_close(s, i) {
            closes -= 1;
        }
        i = next_line(s, i);
    }
    i
}

// Where the line of entry e of Table t starts, or the end of s.
pub fn place_of(s: &[u8], t: usize, e: usize) -> usize
    requires { 1 ≤ t }
    ensures { Stands s.now 0 result (from_place t e s.now) }
{
    if s.is_empty() {
        return 0;
    }
    let first = next_line(s, 0);
    let table = skip_closes(s, first, t - 1);
    skip_lines(s, table, e)
}

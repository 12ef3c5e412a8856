// Where the keyed line of a place starts, once the program's first line is judged.
#![tactic(auto)]

ghost use Rattle.std.specs.Prelude.{◌≡◌, ◌≤◌, length, drop};
ghost use Rattle.base_lines.specs.Line.{from_place};

// Where the line of the place 0, 0 starts: the first line if that is at fault, else the one behind Table 3, or behind the `)` there.
fn outer_line(s: &[u8], begun: bool) -> usize
    ensures { result ≤ length s.now }
{
    if !begun {
        return 0;
    }
    let last = base_lines::place_of(s, 4, 0);
    if last == s.len() {
        return last;
    }
    if base_lines::is_close(s, last) {
        return base_lines::next_line(s, last);
    }
    last
}

// Where the line of a place starts, or the end of the text; `begun` says whether the program's first line is sound.
pub fn line_of_place(s: &[u8], begun: bool, table: usize, entry: usize) -> usize
    ensures { (result ≤ length s.now) × ((1 ≤ table) → drop result s.now ≡ from_place table entry s.now) }
{
    if table == 0 {
        return outer_line(s, begun);
    }
    base_lines::place_of(s, table, entry)
}

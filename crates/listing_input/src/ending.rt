// Where the keyed text ends.
ghost use Rattle.std.specs.Prelude.{◌≡◌, ◌≤◌, length, drop};
ghost use Rattle.listing_input.specs.Extent.{two_closes, extent_of};

use base_lines::is_close;

// Two lines `)` start at `at`.
fn two_closes(s: &[u8], at: usize) -> bool
    requires { at ≤ length s.now }
    ensures { result ≡ two_closes (drop at s.now) }
{
    if s.len() - at < 4 {
        return false;
    }
    is_close(s, at) && is_close(s, at + 2)
}

// How far the text goes: to behind the first `)` line straight after a `)` line, or all of it.
pub fn find_end(s: &[u8]) -> Option<usize>
    ensures { result ≡ extent_of s.now }
{
    let mut starts = true;
    for i in 0..s.len() {
        if starts && two_closes(s, i) {
            return Some(i + 4);
        }
        starts = s[i] == b'\n';
    }
    None
}

// An entry's line.
ghost use Rattle.std.specs.Prelude.{◌≡◌};
ghost use Rattle.text_lines.specs.Line.{entry_of, limited};

use base_program::Instruction;
use text_entry::count_and_make;
use text_items::Items;
use text_parameters::{MALFORMED, whole_at};

// An entry's line: fault 1 where it is no `(`, items and `)`.
#[tactic(auto, unfolding(crate::specs::Line::entry_of, crate::specs::Line::bracketed, text_parameters::specs::Entry::entry_in, text_parameters::specs::Entry::numbered))]
fn read_entry(l: &[u8]) -> Result<Instruction, u8>
    ensures { result ≡ entry_of l.now }
{
    if l.len() < 2 || l[0] != b'(' || l[l.len() - 1] != b')' {
        return Err(1);
    }
    let items = Items::of(&l[1..l.len() - 1]);
    if items.len() == 0 {
        return Err(1);
    }
    let n = whole_at(&items, 0).ok_or(MALFORMED)?;
    count_and_make(&items, n)
}

// The line of entry n: a sound entry 100 is fault 6.
#[tactic(auto, unfolding(crate::specs::Line::limited))]
pub fn read_nth(l: &[u8], n: u8) -> Result<Instruction, u8>
    ensures { result ≡ limited n (entry_of l.now) }
{
    let x = read_entry(l)?;
    if n == 100 {
        return Err(6);
    }
    Ok(x)
}

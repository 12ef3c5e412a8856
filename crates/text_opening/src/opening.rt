// The lines that open the program and its tables, and `)`.
ghost use Rattle.std.specs.Prelude.{◌≡◌, ◌≤◌, ◌<◌, length};
ghost use Rattle.text_opening.specs.Opening.{opened, program_of, is_keyed_interval, is_table_line, table_items, table_line, closes};

use crate::Sizes;
use text_items::Items;
use text_parameters::{MALFORMED, item_is, item_number, whole_at};

// The items behind `(`; none where the line does not start with it.
#[tactic(auto, unfolding(crate::specs::Opening::opened, text_items::specs::Split::items_of, text_items::specs::Split::all_items, text_items::specs::Split::is_item, text_items::specs::Split::split))]
fn opened<'a>(l: &'a [u8]) -> Items<'a>
    ensures { result ≡ opened l.now }
{
    if 1 <= l.len() && l[0] == b'(' {
        Items::of(&l[1..])
    } else {
        Items::of(&l[..0])
    }
}

// The program's first line: fault 1 where it is another line.
#[tactic(auto, unfolding(crate::specs::Opening::program_of, crate::specs::Opening::program_in, crate::specs::Opening::sized))]
pub fn judge_program(l: &[u8]) -> Result<Sizes, u8>
    ensures { result ≡ program_of l.now }
{
    let items = opened(l);
    if items.len() != 3 || !item_is(&items, 0, b"program") {
        return Err(1);
    }
    let locations = item_number(&items, 1, 1, 2000).ok_or(MALFORMED)?;
    let sums = item_number(&items, 2, 0, 2000).ok_or(MALFORMED)?;
    Ok(Sizes { locations, sums })
}

// 1 to 7 for Table 1, and 0 or a multiple of 8.
#[tactic(auto, unfolding(crate::specs::Opening::is_keyed_interval))]
fn is_interval(t: u8, v: u32) -> bool
    ensures { result ≡ is_keyed_interval t v }
{
    t == 1 && v <= 7 || v % 8 == 0 && v <= 524240
}

// How many items the first line of table t has.
#[tactic(auto, unfolding(crate::specs::Opening::table_items))]
fn table_items(t: u8) -> usize
    ensures { result ≡ table_items t }
{
    if t < 3 { 3 } else { 2 }
}

// `table` and the table's own number.
#[tactic(auto, unfolding(crate::specs::Opening::is_table_line))]
fn is_table(items: &Items, t: u8) -> bool
    requires { (2 ≤ length items.now) × (t ≤ 3) }
    ensures { result ≡ is_table_line t items.now }
{
    item_is(items, 0, b"table") && item_is(items, 1, &[b'0' + t])
}

// The first line of table t, with its V, 0 for Table 3: fault 1 where it is another line, 5 where V is out of range.
#[tactic(auto, unfolding(crate::specs::Opening::table_line, crate::specs::Opening::table_in, crate::specs::Opening::table_items, crate::specs::Opening::interval_keyed))]
pub fn judge_table(l: &[u8], t: u8) -> Result<u32, u8>
    requires { t ≤ 3 }
    ensures { result ≡ table_line t l.now }
{
    let items = opened(l);
    if items.len() != table_items(t) || !is_table(&items, t) {
        return Err(1);
    }
    if 3 <= t {
        return Ok(0);
    }
    let v = whole_at(&items, 2).ok_or(MALFORMED)?;
    if is_interval(t, v) { Ok(v) } else { Err(5) }
}

// `)`.
#[tactic(auto, using(text_items::proofs::Same::same_is), unfolding(crate::specs::Opening::closes))]
pub fn is_close(l: &[u8]) -> bool
    ensures { result ≡ closes l.now }
{
    l == b")".as_slice()
}

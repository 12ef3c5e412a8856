// What a later line that the listing program is fed says, without its byte 10.
#![tactic(auto)]

ghost use Rattle.std.specs.Prelude.{◌≡◌};
ghost use Rattle.listing_input.specs.Line.{line_in, line_of};

use listing_input::Line;
use text_items::Items;
use text_parameters::{fixed_at, item_is, whole_at};

// The items between `(` and `)`.
#[tactic(auto, unfolding(listing_input::specs::Line::line_in, listing_input::specs::Line::reading_of, listing_input::specs::Line::tick_of))]
fn line_in(items: &Items) -> Option<Line>
    ensures { result ≡ line_in items.now }
{
    if items.len() != 3 {
        return None;
    }
    if item_is(items, 0, b"reading") {
        let k = whole_at(items, 1)?;
        let x = fixed_at(items, 2)?;
        if 1 <= k && k <= 196 {
            return Some(Line::Reading(k as usize, x));
        }
    } else if item_is(items, 0, b"tick") {
        let d = whole_at(items, 1)?;
        let t = whole_at(items, 2)?;
        return Some(Line::Tick(d, t));
    }
    None
}

// Any bytes at all.
#[tactic(auto, unfolding(listing_input::specs::Line::line_of))]
pub fn read_line(l: &[u8]) -> Option<Line>
    ensures { result ≡ line_of l.now }
{
    if l.len() < 2 || l[0] != b'(' || l[l.len() - 1] != b')' {
        return None;
    }
    line_in(&Items::of(&l[1..l.len() - 1]))
}

// The listing call: item j of array k of those that are shown. A word is looked at once in the search, and one that is no value three times at most.
#![tactic(auto)]

ghost use Rattle.std.specs.Prelude.{◌≡◌, length, drop};
ghost use Rattle.storage_ring.specs.Ring.{RingSound, by_age};
ghost use Rattle.storage_listing.specs.Listing.{item_of, listed};
ghost use Rattle.storage_listing.specs.Spans.{spans};
ghost use Rattle.storage_listing.specs.Search.{Within, Sought, array_of};

use storage_listing::{ArraySpan, Item, check_ring, seek};
use storage_ring::RingState;

// Array k of those that are shown: each search begins where the array before it ends.
fn find_array(ring: &[u16], s: RingState, k: usize) -> Option<ArraySpan>
    requires { RingSound (length ring.now) s }
    ensures { Sought (by_age ring.now s) (drop k (spans 0 (by_age ring.now s))) result }
{
    let mut from = 0;
    for _ in 0..k {
        from = seek(ring, s, from)?.end;
    }
    seek(ring, s, from)
}

// Item j of the array that lies there.
fn item_at(ring: &[u16], s: RingState, span: ArraySpan, j: usize) -> Option<Item>
    requires { RingSound (length ring.now) s × Within (by_age ring.now s) span }
    ensures { result ≡ item_of j (array_of (by_age ring.now s) (Some span)) }
{
    if j == 0 {
        return Some(Item::Id(storage_ring::word_at(ring, s, span.start) - 64512));
    }
    if j < span.end - span.start {
        let w = storage_ring::word_at(ring, s, span.start + j);
        return Some(Item::Value(storage_word::decimal_of(w)));
    }
    None
}

// Item j of array k, both from 0. It writes nothing.
pub fn list(ring: &[u16], s: RingState, k: usize, j: usize) -> Result<Option<Item>, u8>
    ensures { result ≡ listed ring.now s k j }
{
    check_ring(ring.len(), s)?;
    let Some(span) = find_array(ring, s, k) else {
        return Ok(None);
    };
    Ok(item_at(ring, s, span, j))
}

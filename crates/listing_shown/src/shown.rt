// The arrays that are shown, a line each.
ghost use Rattle.std.specs.Prelude.{◌≤◌, length};
ghost use Rattle.storage_ring.specs.Ring.{RingSound, by_age};
ghost use Rattle.storage_listing.specs.Search.{Within};
ghost use Rattle.storage_listing.specs.Spans.{held};
ghost use Rattle.listing_output.specs.Written.{Put};
ghost use Rattle.listing_output.specs.Shown.{values_bytes, lines_of_arrays, held_arrays};
ghost use Rattle.listing_output.specs.Walk.{line_at};
ghost use Rattle.spec_calls.specs.Stores.{ring_state};

use spec_calls::State;
use storage_listing::{ArraySpan, Item, check_ring, seek};
use storage_ring::RingState;

// The values of the array that lies there, after commas.
fn put_values(ring: &[u16], s: RingState, span: ArraySpan, out: &mut [u8], n: usize) -> usize
    requires { RingSound (length ring.now) s × Within (by_age ring.now s) span × (n ≤ length out.old) }
    ensures { Put out.old n (values_bytes (held (by_age ring.now s) span.start span.end)) result out.new }
{
    let mut m = n;
    for i in span.start + 1..span.end {
        let d = storage_word::decimal_of(storage_ring::word_at(ring, s, i));
        m = listing_items::put_item(Ok(Some(Item::Value(d))), &mut out[..], m);
    }
    m
}

// Its line: 'id, then each value with its places, after commas'.
fn put_array(ring: &[u16], s: RingState, span: ArraySpan, out: &mut [u8], n: usize) -> usize
    requires { RingSound (length ring.now) s × Within (by_age ring.now s) span × (n ≤ length out.old) }
    ensures { Put out.old n (line_at (by_age ring.now s) span) result out.new }
{
    let id = storage_ring::word_at(ring, s, span.start) - 64512;
    let a = listing_items::put_item(Ok(Some(Item::Id(id))), &mut out[..], n);
    let b = put_values(ring, s, span, &mut out[..], a);
    listing_output::put_byte(b'\n', &mut out[..], b)
}

// The listing.
pub fn put_listing(state: State, ring: &[u16], out: &mut [u8]) -> usize
    ensures { Put out.old 0 (lines_of_arrays (held_arrays ring.now (ring_state state))) result out.new }
{
    let s = state.ring();
    if check_ring(ring.len(), s).is_err() {
        return 0;
    }
    let mut n = 0;
    let mut from = 0;
    while let Some(span) = seek(ring, s, from) {
        n = put_array(ring, s, span, &mut out[..], n);
        from = span.end;
    }
    n
}

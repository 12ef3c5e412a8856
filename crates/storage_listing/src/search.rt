// The search for the next array.
ghost use Rattle.std.specs.Prelude.{◌≤◌, length};
ghost use Rattle.storage_ring.specs.Ring.{RingSound, by_age};
ghost use Rattle.storage_listing.specs.Spans.{spans_from};
ghost use Rattle.storage_listing.specs.Search.{Sought};
ghost use Rattle.storage_listing.specs.Runs.{ValuesTo};

use crate::ArraySpan;
use storage_ring::RingState;

// The first place from `at` on whose word is no value, or `end`.
fn past_values(ring: &[u16], at: usize, end: usize) -> usize
    requires { (at ≤ end) × (end ≤ length ring.now) }
    ensures { ValuesTo ring.now at end result }
{
    for i in at..end {
        if !storage_word::is_value(ring[i]) {
            return i;
        }
    }
    end
}

// The same of the words by age, from word i on.
fn values_end(ring: &[u16], s: RingState, i: usize) -> usize
    requires { RingSound (length ring.now) s × (i ≤ s.filled) }
    ensures { ValuesTo (by_age ring.now s) i s.filled result }
{
    let n = ring.len();
    let position = s.position as usize;
    let base = position + (n - s.filled as usize);
    let at = base + i;
    if n <= at {
        return past_values(ring, at - n, position) + n - base;
    }
    let r = past_values(ring, at, n);
    if r < n {
        return r - base;
    }
    past_values(ring, 0, position) + (n - base)
}

// The first array that is shown from word `from` on. It is known to be whole once the next one starts, or at the newest word.
pub fn seek(ring: &[u16], s: RingState, from: usize) -> Option<ArraySpan>
    requires { RingSound (length ring.now) s }
    ensures { Sought (by_age ring.now s) (spans_from (by_age ring.now s) from) result }
{
    let filled = s.filled as usize;
    let mut i = from;
    // A `while`: behind a spoiled array the search goes on, and no word is looked at again.
    while i < filled {
        let at = i;
        i += 1;
        if storage_word::is_start(storage_ring::word_at(ring, s, at)) {
            let end = values_end(ring, s, i);
            if filled <= end {
                return Some(ArraySpan {
                    start: at,
                    end: filled,
                });
            }
            if storage_word::is_start(storage_ring::word_at(ring, s, end)) {
                return Some(ArraySpan { start: at, end });
            }
            i = end + 1;
        }
    }
    None
}

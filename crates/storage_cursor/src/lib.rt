// The listing of Final Storage by a cursor, where each call answers the next whole array. Over a whole listing a value is looked at twice, once to find
// its array and once to copy it, and a third time where no array that is shown follows; any other word five times at most.
#![tactic(auto)]

ghost use Rattle.std.specs.Prelude.{◌≡◌, ◌+◌, ◌-◌, ◌≤◌, ◌<◌, length};
ghost use Rattle.std.proofs.lemmas.List.Edits.{sets};
ghost use Rattle.storage_ring.specs.Ring.{RingSound, by_age};
ghost use Rattle.storage_listing.specs.Spans.{held};
ghost use Rattle.storage_listing.specs.Search.{Within};
ghost use Rattle.storage_listing.specs.Stepped.{is_current, next_refusal, left, arrived, stepped};

use storage_listing::{ArraySpan, Cursor, NextArray, NextError, check_ring};
use storage_ring::RingState;

// As many values are lent as the ring has words, and the ring is not refused.
#[tactic(auto, unfolding(storage_listing::specs::Stepped::next_refusal))]
fn check_lent(n: usize, s: RingState, lent: usize) -> Result<(), u8>
    ensures { result ≡ next_refusal n s lent }
{
    if lent != n {
        return Err(31);
    }
    check_ring(n, s)
}

// The cursor is at the beginning, or it was given with the ring as it now stands.
#[tactic(auto, unfolding(storage_listing::specs::Stepped::is_current))]
fn is_current(s: RingState, c: Cursor) -> bool
    ensures { result ≡ is_current s c }
{
    c.from == 0 || c.position == s.position && c.filled == s.filled
}

// The place of the oldest word of a ring of n words, before it goes round.
fn oldest(s: RingState, n: usize) -> usize
    requires { RingSound n s }
    ensures { result ≡ s.position + (n - s.filled) }
{
    s.position as usize + (n - s.filled as usize)
}

// Word by word: a slice's own copy would be a call of `memmove`, and a program that links the library need not have one.
fn copy_words(words: &[u16], values: &mut [u16])
    requires { length values.old ≡ length words.now }
    ensures { values.new ≡ words.now }
{
    for (k, w) in words.iter().enumerate() {
        values[k] = *w;
    }
}

// The words behind the array's start word, in front of the values lent: they lie in one part of the ring, or in two where they go round.
fn copy_values(ring: &[u16], s: RingState, span: ArraySpan, values: &mut [u16])
    requires { RingSound (length ring.now) s × (span.start < span.end) × (span.end ≤ s.filled) × (length values.old ≡ length ring.now) }
    ensures { values.new ≡ sets values.old 0 (held (by_age ring.now s) span.start span.end) }
{
    let n = ring.len();
    let count = span.end - (span.start + 1);
    let at = oldest(s, n) + span.start + 1;
    if n <= at {
        let round = at - n;
        copy_words(&ring[round..round + count], &mut values[..count]);
    } else if at + count <= n {
        copy_words(&ring[at..at + count], &mut values[..count]);
    } else {
        let part = n - at;
        copy_words(&ring[at..], &mut values[..part]);
        copy_words(&ring[..count - part], &mut values[part..count]);
    }
}

// The array that lies there; the cursor goes on behind it.
fn arrive(
    ring: &[u16],
    s: RingState,
    span: ArraySpan,
    cursor: &mut Cursor,
    values: &mut [u16],
) -> NextArray
    requires { RingSound (length ring.now) s × Within (by_age ring.now s) span × (length values.old ≡ length ring.now) }
    ensures { left (Ok (Some result)) cursor.new values.new ≡ arrived (by_age ring.now s) s cursor.old values.old (Some span) }
{
    copy_values(ring, s, span, values);
    *cursor = Cursor {
        from: span.end as u16,
        position: s.position,
        filled: s.filled,
    };
    NextArray {
        id: storage_ring::word_at(ring, s, span.start) - 64512,
        count: span.end - (span.start + 1),
    }
}

// The array at the cursor, its values in front of those lent, and the cursor behind it. Any cursor may be handed in: one that stands at no array that
// is shown is answered as one of a ring that has moved on. Where no array is answered the cursor and the values stay. The ring is not written.
pub fn next(
    ring: &[u16],
    s: RingState,
    cursor: &mut Cursor,
    values: &mut [u16],
) -> Result<Option<NextArray>, NextError>
    ensures { left result cursor.new values.new ≡ stepped ring.now s cursor.old values.old }
{
    if let Err(number) = check_lent(ring.len(), s, values.len()) {
        return Err(NextError::Refused(number));
    }
    if !is_current(s, *cursor) {
        return Err(NextError::MovedOn);
    }
    let found = storage_listing::seek(ring, s, cursor.from as usize);
    if !storage_standing::stands(ring, s, cursor.from as usize, found) {
        return Err(NextError::MovedOn);
    }
    let Some(span) = found else {
        return Ok(None);
    };
    Ok(Some(arrive(ring, s, span, cursor, values)))
}

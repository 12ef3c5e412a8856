// Whether the cursor of a listing stands at an array that is shown.
#![tactic(auto)]

ghost use Rattle.std.specs.Prelude.{◌≡◌, length};
ghost use Rattle.storage_ring.specs.Ring.{RingSound, by_age};
ghost use Rattle.storage_listing.specs.Spans.{spans, spans_from, first, ends_at};
ghost use Rattle.storage_listing.specs.Stepped.{stands};
ghost use Rattle.storage_listing.specs.Standing.{found_at, is_bound};

use storage_listing::ArraySpan;
use storage_ring::RingState;

// What was found begins at word `at`.
#[tactic(auto, unfolding(storage_listing::specs::Standing::found_at))]
fn begins_at(f: Option<ArraySpan>, at: usize) -> bool
    ensures { result ≡ found_at f at }
{
    f.is_some_and(|span| span.start == at)
}

// Word `at` is a start word, or the one behind the newest.
#[tactic(auto, using(storage_ring::specs::RingLaws::by_age_length_lem), unfolding(storage_listing::specs::Standing::is_bound))]
fn is_bound(ring: &[u16], s: RingState, at: usize) -> bool
    requires { RingSound (length ring.now) s }
    ensures { result ≡ is_bound (by_age ring.now s) at }
{
    let filled = s.filled as usize;
    if filled <= at {
        return at == filled;
    }
    storage_word::is_start(storage_ring::word_at(ring, s, at))
}

// An array that is shown ends before word `at`: the words before it are values, back to a start word.
fn ends_at(ring: &[u16], s: RingState, at: usize) -> bool
    requires { RingSound (length ring.now) s }
    ensures { result ≡ ends_at (spans 0 (by_age ring.now s)) at }
{
    if !is_bound(ring, s, at) {
        return false;
    }
    for i in (0..at).rev() {
        let w = storage_ring::word_at(ring, s, i);
        if !storage_word::is_value(w) {
            return storage_word::is_start(w);
        }
    }
    false
}

// A cursor stands at word `from`, from which on `f` was found. Words are looked at only where no array that is shown begins there.
pub fn stands(ring: &[u16], s: RingState, from: usize, f: Option<ArraySpan>) -> bool
    requires { RingSound (length ring.now) s × (f ≡ first (spans_from (by_age ring.now s) from)) }
    ensures { result ≡ stands (by_age ring.now s) from }
{
    from == 0 || begins_at(f, from) || ends_at(ring, s, from)
}

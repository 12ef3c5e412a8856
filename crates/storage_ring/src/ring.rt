// Writing a word, and reading one by its age.
ghost use Rattle.std.specs.Prelude.{◌≡◌, ◌+◌, ◌%◌, ◌≤◌, ◌<◌, min, length, set, get_or};
ghost use Rattle.storage_ring.specs.Ring.{RingSound, by_age, advanced};

use crate::RingState;

fn next_position(position: u16, n: usize) -> u16
    requires { (position < n) × (n ≤ 32768) }
    ensures { result ≡ (position + 1) % n }
{
    if position as usize + 1 < n {
        position + 1
    } else {
        0
    }
}

fn more_filled(filled: u16, n: usize) -> u16
    requires { (filled ≤ n) × (n ≤ 32768) }
    ensures { result ≡ min (filled + 1) n }
{
    (filled as usize + 1).min(n) as u16
}

// 'A new word overwrites the oldest.'
pub fn write_word(ring: &mut [u16], s: RingState, w: u16) -> RingState
    requires { RingSound (length ring.old) s }
    ensures { (result ≡ advanced (length ring.old) s) × (ring.new ≡ set ring.old s.position w) }
{
    let n = ring.len();
    let at = s.position as usize;
    ring[at] = w;
    RingState {
        position: next_position(s.position, n),
        filled: more_filled(s.filled, n),
    }
}

// The word with i older ones.
pub fn word_at(ring: &[u16], s: RingState, i: usize) -> u16
    requires { RingSound (length ring.now) s × (i < s.filled) }
    ensures { result ≡ get_or (by_age ring.now s) i 0 }
{
    let n = ring.len();
    let at = s.position as usize + (n - s.filled as usize) + i;
    if at < n {
        return ring[at];
    }
    let round = at - n;
    ring[round]
}

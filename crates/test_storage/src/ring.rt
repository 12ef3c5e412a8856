// Rings: written from fresh, wrapped, spoiled, of several lengths, and refused.
ghost use Rattle.std.specs.Prelude.{◌≡◌, ◌≤◌, length};
ghost use Rattle.storage_ring.specs.Ring.{RingSound};

use crate::show;
use std::io;
use storage_ring::RingState;

// Writes the words in turn.
fn write_all(ring: &mut [u16], s: RingState, words: &[u16]) -> RingState
    requires { RingSound (length ring.old) s }
    ensures { RingSound (length ring.new) result }
{
    let mut at = s;
    for w in words {
        at = storage_ring::write_word(ring, at, *w);
    }
    at
}

// The state of a ring in which nothing is written.
fn fresh() -> RingState
    ensures { (result.position ≡ 0) × (result.filled ≡ 0) }
{
    RingState {
        position: 0,
        filled: 0,
    }
}

// What a fresh ring of N words shows once the words are written.
fn written_in<const N: usize>(rt: &impl Print, words: &[u16]) -> io::Result<()>
    requires { (1 ≤ N) × (N ≤ 32768) }
{
    let mut ring = [0u16; N];
    let s = write_all(&mut ring, fresh(), words);
    show::arrays(rt, &ring, s)
}

pub fn kinds(rt: &impl Print) -> io::Result<()> {
    // two arrays; a start word alone; the largest id; nothing
    written_in::<8>(rt, &[64614, 27076, 57407, 64614, 24576])?;
    written_in::<8>(rt, &[64614, 64615, 25576])?;
    written_in::<8>(rt, &[65535, 700, 6999])?;
    written_in::<8>(rt, &[])?;
    // words before the first start word belong to no array
    written_in::<8>(rt, &[27076, 57407, 64615, 25576])?;
    // going round, the oldest array loses its start word
    written_in::<4>(rt, &[64614, 27076, 57407, 64615, 25576])?;
    written_in::<4>(rt, &[64614, 27076, 64615, 25576, 64616, 24577])?;
    // words that no value has: digits over 6,999; under 700 with fewer than 3 places; a negative zero
    written_in::<8>(rt, &[64614, 27076, 7000, 64615, 25576])?;
    written_in::<8>(rt, &[64614, 699, 64615, 700])?;
    written_in::<8>(rt, &[64614, 17083, 64615, 17084])?;
    written_in::<8>(rt, &[64614, 57344, 64615, 57345])?;
    written_in::<8>(rt, &[64614, 25576, 64615, 64511])
}

// Writes an array of one value n times.
fn repeat(ring: &mut [u16], s: RingState, n: u16) -> RingState
    requires { RingSound (length ring.old) s }
    ensures { RingSound (length ring.new) result }
{
    let mut at = s;
    for _ in 0..n {
        at = storage_ring::write_word(ring, at, 64614);
        at = storage_ring::write_word(ring, at, 25000);
    }
    at
}

// The shortest ring, and the longest, gone round.
pub fn lengths(rt: &impl Print) -> io::Result<()> {
    written_in::<1>(rt, &[64614])?;
    written_in::<1>(rt, &[64614, 25576])?;
    written_in::<1>(rt, &[64614, 25576, 64615])?;
    let mut ring = [0u16; 32768];
    let s = repeat(&mut ring, fresh(), 20000);
    show::array(rt, &ring, s, 0)?;
    show::array(rt, &ring, s, 16383)?;
    show::array(rt, &ring, s, 16384)?;
    Ok(())
}

// A ring of no words or of too many, a position past the end, and more words filled than there are.
pub fn refusals(rt: &impl Print) -> io::Result<()> {
    let none: [u16; 0] = [];
    show::array(rt, &none, fresh(), 0)?;
    show::array(rt, &[0u16; 32769], fresh(), 0)?;
    show::array(
        rt,
        &[0u16; 4],
        RingState {
            position: 4,
            filled: 0,
        },
        0,
    )?;
    show::array(
        rt,
        &[0u16; 4],
        RingState {
            position: 3,
            filled: 5,
        },
        0,
    )?;
    Ok(())
}

// What a scan is refused for, but for its record; and which table is due. Nothing here writes.
#![tactic(auto)]

ghost use Rattle.std.specs.Prelude.{◌≡◌, ◌≢◌, MatchResult};
ghost use Rattle.spec_machine.specs.Calls.{is_tick};
ghost use Rattle.spec_calls.specs.Refusals.{few_samples};
ghost use Rattle.scan_refusals.specs.Lent.{sizes_lent, lent_all, ordered, lent_refusal, runs_at};

use base_program::{LAST_TIME, MOST_SAMPLES};
use spec_calls::State;

const LAST_ARRAY: u16 = 399;

const LAST_DAY: u32 = 366;

// How many locations, sums, readings and words are lent.
#[derive(Clone, Copy)]
pub struct Sizes {
    pub locations: usize,
    pub sums: usize,
    pub readings: usize,
    pub ring: usize,
}

pub fn lent_sizes(locations: usize, sums: usize, readings: usize, ring: usize) -> Sizes
    ensures { result ≡ sizes_lent locations sums readings ring }
{
    Sizes {
        locations,
        sums,
        readings,
        ring,
    }
}

// 31: 'Lent lengths: locations I, sums M, counts 297, readings 196, ring 1 to 32,768'
fn are_lent(i: u16, m: u16, n: Sizes, counts: usize) -> bool
    ensures { result ≡ lent_all i m n counts }
{
    n.locations == i as usize
        && (n.sums == m as usize
            && (counts == 297 && (n.readings == 196 && (1 <= n.ring && n.ring <= 32768))))
}

// 32: 'a sample count over 16,777,215'. Every count is looked at, so that several can be at once: `all`, which leaves early, is slower.
fn few_samples(counts: &[u32]) -> bool
    ensures { result ≡ few_samples counts.now }
{
    let mut few = true;
    for c in counts {
        if MOST_SAMPLES < *c {
            few = false;
        }
    }
    few
}

// 32: 'Ring position at or past its length, filled count over it, array id over 399', or such a count
fn in_order(s: State, ring: usize, counts: &[u32]) -> bool
    ensures { result ≡ ordered s ring counts.now }
{
    (s.position as usize) < ring
        && (s.filled as usize <= ring && (s.array <= LAST_ARRAY && few_samples(counts)))
}

// 33: 'A tick has a day (1 to 366) and T eightieths since midnight (0 to 6,911,999).'
fn is_tick(day: u32, time: u32) -> bool
    ensures { result ≡ is_tick day time }
{
    1 <= day && (day <= LAST_DAY && time <= LAST_TIME)
}

// Whether a passed record with this I and M is scanned, or else the refusal's number.
pub fn lent_refusal(
    i: u16,
    m: u16,
    n: Sizes,
    s: State,
    counts: &[u32],
    day: u32,
    time: u32,
) -> Result<(), u8>
    ensures { MatchResult result (λ _. lent_refusal i m n s counts.now day time ≡ 0) (λ e. (e ≡ lent_refusal i m n s counts.now day time) × (e ≢ 0)) }
{
    if !are_lent(i, m, n, counts.len()) {
        return Err(31);
    }
    if !in_order(s, n.ring, counts) {
        return Err(32);
    }
    if !is_tick(day, time) {
        return Err(33);
    }
    Ok(())
}

// 'A table runs if V is not 0 and divides T.'
pub fn runs_at(v: u32, time: u32) -> bool
    ensures { result ≡ runs_at v time }
{
    v != 0 && time % v == 0
}

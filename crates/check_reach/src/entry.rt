// Faults 18 and 20 of an entry.
ghost use Rattle.std.specs.Prelude.{◌≡◌, Bool, [], ◌∷◌, ◌*◌, ◌-◌, ◌≤◌, max, length, cond, Some, None};
ghost use Rattle.base_program.specs.Reach.{only, following, numbers_from};
ghost use Rattle.spec_check.specs.Calls.{any_beyond};
ghost use Rattle.check_reach.specs.Ready.{unknown};
ghost use Rattle.check_reach.specs.Needs.{need_of, beyond_moved, need_in};
ghost use Rattle.check_reach.specs.Reached.{reach_of, both, beside};

use crate::Reach;
use base_program::Flow;

// A call of a subroutine that no 85 begins.
fn calls_unknown(x: Flow, subs: &[u8]) -> bool
    requires { length subs.now ≡ 256 }
    ensures { result ≡ unknown x subs.now }
{
    match x {
        Flow::Call(k) => subs[k as usize] == 0,
        _ => false,
    }
}

// What a location and following ones need; 65,536 for location 0.
fn need_of(number: u16, reps: u8) -> u32
    ensures { (b : Bool) → result ≡ need_of (following reps (record { number = number; indexed = b })) }
{
    let number = number as u32;
    if number == 0 {
        return 65536;
    }
    number + (reps as u32).saturating_sub(1)
}

// A location's parts, not the location: copied whole out of an instruction it would go through memory.
pub fn one_reach(number: u16, indexed: bool, reps: u8) -> Reach
    ensures { result ≡ reach_of (following reps (record { number = number; indexed = indexed }) ∷ []) }
{
    let need = need_of(number, reps);
    if indexed {
        return Reach {
            fixed: 0,
            moved: need,
        };
    }
    Reach {
        fixed: need,
        moved: 0,
    }
}

fn joined(a: Reach, b: Reach) -> Reach
    ensures { result ≡ both a b }
{
    Reach {
        fixed: a.fixed.max(b.fixed),
        moved: a.moved.max(b.moved),
    }
}

pub fn two_reach(x: u16, xi: bool, y: u16, yi: bool) -> Reach
    ensures { result ≡ reach_of (only (record { number = x; indexed = xi }) ∷ only (record { number = y; indexed = yi }) ∷ []) }
{
    joined(one_reach(x, xi, 1), one_reach(y, yi, 1))
}

pub fn three_reach(x: u16, xi: bool, y: u16, yi: bool, z: u16, zi: bool) -> Reach
    ensures { result ≡ reach_of (only (record { number = x; indexed = xi }) ∷ only (record { number = y; indexed = yi }) ∷ only (record { number = z; indexed = zi }) ∷ []) }
{
    joined(one_reach(x, xi, 1), two_reach(y, yi, z, zi))
}

// n readings from a single-ended channel on: the last is behind card 7.
fn past_cards(first: u32, n: u32) -> bool
    requires { (first ≤ 1000) × (n ≤ 1000) }
    ensures { result ≡ any_beyond 196 (numbers_from first n) }
{
    0 < n && 196 < first + n - 1
}

// With readings behind the last card or not.
fn with_cards(a: Reach, past: bool) -> Reach
    ensures { result ≡ beside a past }
{
    if past {
        return Reach {
            fixed: a.fixed.max(65536),
            moved: a.moved,
        };
    }
    a
}

// A measurement of following single-ended channels.
pub fn single_reach(channel: u8, reps: u8, number: u16, indexed: bool) -> Reach
    ensures { result ≡ beside (reach_of (following reps (record { number = number; indexed = indexed }) ∷ [])) (any_beyond 196 (numbers_from channel reps)) }
{
    with_cards(
        one_reach(number, indexed, reps),
        past_cards(channel as u32, reps as u32),
    )
}

// A measurement of following differential channels, each of two inputs. One function for both kinds of channel would take the first input and the
// number of inputs from each caller: no plainer.
pub fn differential_reach(channel: u8, reps: u8, number: u16, indexed: bool) -> Reach
    ensures { result ≡ beside (reach_of (following reps (record { number = number; indexed = indexed }) ∷ [])) (any_beyond 196 (numbers_from (2 * channel - 1) (2 * reps))) }
{
    with_cards(
        one_reach(number, indexed, reps),
        past_cards((2 * channel as u32).saturating_sub(1), 2 * reps as u32),
    )
}

// What is left for the last pass to judge; 65,536 where I is beyond reach at once.
pub fn need_in(far: Reach, most: u16) -> u32
    ensures { result ≡ need_in most far.fixed far.moved }
{
    if (most as u32) < far.fixed {
        65536
    } else {
        far.moved
    }
}

// Beyond I on the last pass of the innermost loop.
fn is_beyond(need: u32, passes: u16, most: u16) -> bool
    ensures { result ≡ beyond_moved most passes need }
{
    0 < need && (most as u64) < need as u64 + passes.saturating_sub(1) as u64
}

// The fault of an entry: its kind and what it needs, the passes of the innermost loop, I, and where subroutines begin.
pub fn reach_fault(x: Flow, need: u32, passes: u16, most: u16, subs: &[u8]) -> Option<u8>
    requires { length subs.now ≡ 256 }
    ensures { result ≡ cond (unknown x subs.now) (Some 18) (cond (beyond_moved most passes need) (Some 20) None) }
{
    if calls_unknown(x, subs) {
        Some(18)
    } else if is_beyond(need, passes, most) {
        Some(20)
    } else {
        None
    }
}

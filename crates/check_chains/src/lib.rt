// The walk of fault 19: for each subroutine, how many calls follow one another from it.
#![tactic(auto)]

ghost use Rattle.std.specs.Prelude.{◌≡◌, ℕ, ◌≤◌, ◌<◌, length, get_or, leb};
ghost use Rattle.base_program.specs.declared.Program.{Program};
ghost use Rattle.spec_check.specs.Blocks.{label};
ghost use Rattle.spec_check.specs.Check.{first_of, walk_chains};
ghost use Rattle.record_codes.specs.Loaded.{decode};
ghost use Rattle.check_subroutines.specs.Listed.{ListedCalls};
ghost use Rattle.check_chains.specs.Chains.{ChainsReady, ChainsWalked, LongReady, HeightsAre, Raised, Higher, call_holds, high};

use base_program::{Finding, fault_at};
use check_subroutines::CallList;
use record_codes::{CALL, EXIT_IF_TRUE, SUBROUTINE};

// Of `most` and the height that a call of a subroutine of height h gives, the higher one.
fn above(h: u8, most: u8) -> u8
    requires { most ≤ 7 }
    ensures { Higher (λ s. leb s h) most result }
{
    if h < most {
        return most;
    }
    if h < 7 { h + 1 } else { 7 }
}

// The code of an 85 whose subroutine has a height of 7.
fn starts_long(c: u32, heights: &[u8]) -> bool
    requires { length heights.now ≡ 256 }
    ensures { result ≡ call_holds (high heights.now 7) (label (decode c)) }
{
    if SUBROUTINE <= c && c < CALL {
        7 <= heights[(c % 256) as usize]
    } else {
        false
    }
}

// A round: each subroutine gets its height by the heights as they stand, from the last one up. Whether a height changed.
// Its body is what stands between its 85 and the next one: no block is left open.
fn raise_heights(codes: &[u32], calls: &CallList, heights: &mut [u8]) -> bool
    requires { (length codes.now ≡ 297) × ListedCalls codes.now calls.now.places calls.now.count × (length heights.old ≡ 256) }
    ensures { (p : Program) (k : ℕ) → k < 7 → ChainsReady p codes.now (get_or calls.now.places 0 0) → HeightsAre p k heights.old → Raised p k heights.new result }
{
    let mut raised = false;
    // the highest that the calls from here to the next 85 give
    let mut most = 0;
    for &e in &calls.places[1..=calls.count] {
        let c = codes[198 + e as usize];
        if c < SUBROUTINE {
            continue;
        }
        if EXIT_IF_TRUE <= c {
            continue;
        }
        let k = (c % 256) as usize;
        if CALL <= c {
            most = above(heights[k], most);
            continue;
        }
        if heights[k] != most {
            heights[k] = most;
            raised = true;
        }
        most = 0;
    }
    raised
}

// The heights, up to 7.
fn fill_heights(codes: &[u32], calls: &CallList, heights: &mut [u8])
    requires { (length codes.now ≡ 297) × ListedCalls codes.now calls.now.places calls.now.count × (length heights.old ≡ 256) × ((k : ℕ) → get_or heights.old k 0 ≡ 0) }
    ensures { (p : Program) → ChainsReady p codes.now (get_or calls.now.places 0 0) → HeightsAre p 7 heights.new }
{
    for _round in 0u8..7 {
        if !raise_heights(codes, calls, heights) {
            return;
        }
    }
}

// The first 85 of Table 3 that starts a chain of eight.
fn first_long(codes: &[u32], calls: &CallList, heights: &[u8]) -> Finding
    requires { (length codes.now ≡ 297) × ListedCalls codes.now calls.now.places calls.now.count × (length heights.now ≡ 256) }
    ensures { (p : Program) → LongReady p codes.now (get_or calls.now.places 0 0) heights.now → result ≡ first_of (walk_chains p) }
{
    for i in (0..calls.count).rev() {
        let e = calls.places[i + 1] as usize;
        if starts_long(codes[198 + e], heights) {
            return fault_at(19, 2, 1 + e);
        }
    }
    Finding::Clean
}

// Fault 19, from the kinds of the entries of Table 3, whose blocks have no fault, and its 85s and calls. The heights are filled in.
pub fn walk_chains(codes: &[u32], calls: &CallList, heights: &mut [u8]) -> Finding
    requires { (length codes.now ≡ 297) × ListedCalls codes.now calls.now.places calls.now.count × (length heights.old ≡ 256) × ((k : ℕ) → get_or heights.old k 0 ≡ 0) }
    ensures { (p : Program) → ChainsReady p codes.now (get_or calls.now.places 0 0) → ChainsWalked p heights.new result }
{
    fill_heights(codes, calls, heights);
    first_long(codes, calls, heights)
}

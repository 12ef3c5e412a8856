// What a call of each subroutine adds: from the last one up where no call leads back, else those with shorter chains of calls first.
ghost use Rattle.std.specs.Prelude.{◌≡◌, Bool, List, ℕ, ◌+◌, ◌<◌, length, get_or};
ghost use Rattle.base_program.specs.declared.Program.{Program};
ghost use Rattle.spec_check.specs.Counts.{call_count};
ghost use Rattle.check_subroutines.specs.Listed.{ListedCalls};
ghost use Rattle.check_count.specs.Saturate.{sat};
ghost use Rattle.check_counts.specs.Subs.{SubsReady, AtCount, CountRule, CountedBy};
ghost use Rattle.check_counts.specs.Ahead.{CallsAhead, FirstHigh};
ghost use Rattle.check_counts.specs.Lent.{SubSizes, Stopped};

use check_count::count_from;
use check_subroutines::CallList;
use record_codes::{CALL, EXIT_IF_TRUE, SUBROUTINE};

// Counts the subroutine whose 85 is entry e, from 0, of Table 3, if its chains have low to high calls.
fn count_sub(
    codes: &[u32],
    n: usize,
    e: usize,
    subs: &[u8],
    heights: &[u8],
    low: u8,
    high: u8,
    adds: &mut [u16],
    factors: &mut [u16],
)
    requires { (SubSizes codes.now n subs.now heights.now factors.old × Stopped adds.old) × (e < n) }
    ensures { ((first : List ℕ) → AtCount codes.now n subs.now heights.now low high first adds.old (e + 1) → AtCount codes.now n subs.now heights.now low high first adds.new e) × Stopped adds.new }
{
    let at = 198 + e;
    let c = codes[at];
    if c < SUBROUTINE {
        return;
    }
    if CALL <= c {
        return;
    }
    let k = (c % 256) as usize;
    if subs[k] != (e + 1) as u8 {
        return;
    }
    if heights[k] < low {
        return;
    }
    if high < heights[k] {
        return;
    }
    let counted = count_from(codes, 198, e + 1, n, &adds[..], &mut factors[..]);
    adds[k] = counted as u16;
}

// A round from the last subroutine up, over those whose chains have low to high calls.
fn count_round(
    codes: &[u32],
    calls: &CallList,
    subs: &[u8],
    heights: &[u8],
    low: u8,
    high: u8,
    adds: &mut [u16],
    factors: &mut [u16],
)
    requires { SubSizes codes.now (get_or calls.now.places 0 0) subs.now heights.now factors.old × (ListedCalls codes.now calls.now.places calls.now.count × Stopped adds.old) }
    ensures { ((p : Program) (before after : ℕ → Bool) → SubsReady p codes.now (get_or calls.now.places 0 0) subs.now heights.now → CountRule p subs.now heights.now low high before after → CountedBy p adds.old before → CountedBy p adds.new after) × Stopped adds.new }
{
    let n = calls.places[0] as usize;
    for &e in &calls.places[1..=calls.count] {
        count_sub(
            codes,
            n,
            e as usize,
            subs,
            heights,
            low,
            high,
            &mut adds[..],
            &mut factors[..],
        );
    }
}

// A call's code, at entry e, of a subroutine that does not begin behind it.
fn leads_back(c: u32, e: u8, subs: &[u8]) -> bool
    requires { (length subs.now ≡ 256) × (e < 99) }
    ensures { CallsAhead c e subs.now result }
{
    if CALL <= c && c < EXIT_IF_TRUE {
        subs[(c % 256) as usize] <= e + 1
    } else {
        false
    }
}

// The longest chains that the first round can take: all where no call leads back, else those without calls.
fn first_high(codes: &[u32], calls: &CallList, subs: &[u8]) -> u8
    requires { (length codes.now ≡ 297) × (length subs.now ≡ 256) × ListedCalls codes.now calls.now.places calls.now.count }
    ensures { FirstHigh codes.now (get_or calls.now.places 0 0) subs.now result }
{
    for &e in &calls.places[1..=calls.count] {
        if leads_back(codes[198 + e as usize], e, subs) {
            return 0;
        }
    }
    6
}

// The subroutines of Table 3, by the list of its 85s and calls.
pub fn count_subs(
    codes: &[u32],
    calls: &CallList,
    subs: &[u8],
    heights: &[u8],
    adds: &mut [u16],
    factors: &mut [u16],
)
    requires { SubSizes codes.now (get_or calls.now.places 0 0) subs.now heights.now factors.old × ListedCalls codes.now calls.now.places calls.now.count × (Stopped adds.old × ((k : ℕ) → get_or adds.old k 0 ≡ 0)) }
    ensures { ((p : Program) → SubsReady p codes.now (get_or calls.now.places 0 0) subs.now heights.now → (k : ℕ) → k < 256 → get_or adds.new k 0 ≡ sat (call_count p 7 k)) × Stopped adds.new }
{
    let high = first_high(codes, calls, subs);
    count_round(
        codes,
        calls,
        subs,
        heights,
        0,
        high,
        &mut adds[..],
        &mut factors[..],
    );
    for h in high + 1..7 {
        count_round(
            codes,
            calls,
            subs,
            heights,
            h,
            h,
            &mut adds[..],
            &mut factors[..],
        );
    }
}

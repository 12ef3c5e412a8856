// The count of entries from one place on, up to the End that closes what stands before them: one pass forward, stopped at 60,001.
#![tactic(auto)]

ghost use Rattle.std.specs.Prelude.{◌≡◌, List, ◌∷◌, ℕ, ◌+◌, ◌-◌, ◌≤◌, ◌<◌, length, get_or, drop};
ghost use Rattle.base_program.specs.declared.Instruction.{Instruction};
ghost use Rattle.spec_check.specs.Counts.{top, counts};
ghost use Rattle.check_count.specs.Saturate.{sat};
ghost use Rattle.check_count.specs.Dot.{factors, passed, weight};
ghost use Rattle.check_count.specs.Ready.{CountReady, FlowsIn, added};

use base_program::Flow;

fn stop(n: u64) -> u64
    ensures { result ≡ sat n }
{
    n.min(60001)
}

fn push_factor(list: &mut [u16], depth: usize, m: u64) -> usize
    requires { depth < length list.old }
    ensures { (factors list.new result ≡ sat m ∷ factors list.old depth) × (result ≡ depth + 1) }
{
    list[depth] = stop(m) as u16;
    depth + 1
}

// The factors of the open blocks behind an entry of this kind; the new depth.
#[tactic(auto, using(crate::proofs::Dot::factors_top))]
fn pass_factors(x: Flow, m: u64, list: &mut [u16], depth: usize) -> usize
    requires { ((0 < depth) × (depth < length list.old)) × (m ≤ 65535) }
    ensures { (factors list.new result ≡ passed x m (factors list.old depth)) × (result ≤ depth + 1) }
{
    match x {
        Flow::End => depth - 1,
        Flow::Then | Flow::Subroutine(_) => push_factor(list, depth, m),
        Flow::Loop(n) => push_factor(list, depth, m * n as u64),
        Flow::Next | Flow::Else | Flow::Stop | Flow::Call(_) | Flow::Exit(_) => depth,
    }
}

// What an entry of this kind counts by itself: a call adds what its subroutine counts.
fn weight_of(x: Flow, adds: &[u16]) -> u64
    requires { (length adds.now ≡ 256) × ((k : ℕ) → get_or adds.now k 0 ≤ 60001) }
    ensures { (result ≡ weight (added adds.now) x) × (result ≤ 60002) }
{
    match x {
        Flow::Call(k) => 1 + adds[k as usize] as u64,
        _ => 1,
    }
}

// Entries `from` to `to` of the table whose slots begin at `base`. An entry with code 0 counts 1 and leaves the factors.
pub fn count_from(
    codes: &[u32],
    base: usize,
    from: usize,
    to: usize,
    adds: &[u16],
    list: &mut [u16],
) -> u64
    requires { CountReady codes.now base from to adds.now list.old }
    ensures { ((l : List Instruction) → length l ≡ to → FlowsIn codes.now base l → result ≡ sat (top (counts (added adds.now) (drop from l)))) × (result ≤ 60001) }
{
    let mut depth = push_factor(list, 0, 1);
    let mut count = 0;
    for e in from..to {
        let code = codes[base + e];
        let m = list[depth - 1] as u64;
        if code == 0 {
            count = stop(count + m);
            continue;
        }
        let x = record_codes::decode_flow(code);
        count = stop(count + m * weight_of(x, adds));
        depth = pass_factors(x, m, list, depth);
        if depth == 0 {
            return count;
        }
    }
    count
}

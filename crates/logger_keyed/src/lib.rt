// 'Keying sets a location to a finite value or turns flag 1 to 8 over.' By the verdict of the record.
#![tactic(auto)]

ghost use Rattle.std.specs.Prelude.{◌≡◌, ◌≢◌, ◌&&◌, length, MatchResult};
ghost use Rattle.base_float.specs.Finite.{finite};
ghost use Rattle.base_program.specs.Codes.{between};
ghost use Rattle.spec_calls.specs.Refusals.{is_pass};
ghost use Rattle.spec_calls.specs.Answers.{keyed, flagged};
ghost use Rattle.logger_keyed.specs.Keys.{key_behind, flag_behind};

use spec_calls::{Answer, State};
use spec_check::Verdict;

const LAST_FLAG: u8 = 8;

// 34: 'Keyed location 0 or above I, value not finite', where I is i
#[tactic(auto, using(base_float::specs::Laws::is_finite_says))]
fn is_keyed(i: u16, n: u32, v: f32) -> bool
    ensures { result ≡ between 1 i n && finite v }
{
    1 <= n && (n <= i as u32 && v.is_finite())
}

// Location n is set to v, or the refusal's number is answered: by the record's verdict and its I.
pub fn key_judged(verdict: Verdict, i: u16, n: u32, v: f32, locations: &mut [f32]) -> Result<(), u8>
    ensures { MatchResult result (λ _. (key_behind (is_pass verdict) i (length locations.old) n v ≡ 0) × (locations.new ≡ keyed 0 n v locations.old)) (λ e. (e ≡ key_behind (is_pass verdict) i (length locations.old) n v) × (e ≢ 0) × (locations.new ≡ locations.old)) }
{
    let Verdict::Pass(_, _) = verdict else {
        return Err(30);
    };
    if locations.len() != i as usize {
        return Err(31);
    }
    if !is_keyed(i, n, v) {
        return Err(34);
    }
    locations[n as usize - 1] = v;
    Ok(())
}

// Flag f is turned over, or the refusal's number is answered and the state stays: by the record's verdict.
pub fn flag_judged(verdict: Verdict, f: u8, state: State) -> Answer
    ensures { (result.refusal ≡ flag_behind (is_pass verdict) f) × (result.state ≡ flagged result.refusal f state) }
{
    let Verdict::Pass(_, _) = verdict else {
        return spec_calls::answer_with(30, state);
    };
    if f < 1 || LAST_FLAG < f {
        return spec_calls::answer_with(34, state);
    }
    let mut flags = state.flags;
    let at = f as usize;
    flags[at] = !flags[at];
    Answer {
        refusal: 0,
        state: State { flags, ..state },
    }
}

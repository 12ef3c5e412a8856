// The lines behind a text that passed.
ghost use Rattle.std.specs.Prelude.{◌≡◌, ◌≤◌, ◌-◌, length, take, drop};
ghost use Rattle.spec_listing.specs.Step.{run_of};
ghost use Rattle.spec_listing.specs.Reading.{Room, Followed};

use crate::Lister;
use base_program::Program;
use listing_blocks::keep;
use listing_lines::run_lines;
use spec_calls::State;
use spec_listing::Stage;

// Follows the whole lines from `from` to `end` and keeps what is left. A line over 25 bytes says nothing, so no more of it is waited for.
pub fn follow(
    p: Program,
    state: State,
    space: &mut [u8],
    from: usize,
    end: usize,
    readings: &mut [f32],
    locations: &mut [f32],
    sums: &mut [f32],
    counts: &mut [u32],
    ring: &mut [u16],
) -> Lister
    requires { (from ≤ end) × ((end ≤ length space.old) × Room readings.old locations.old sums.old) }
    ensures followed { Followed (take (end - from) (drop from space.old)) p (run_of state readings.old locations.old sums.old counts.old ring.old) result.stage (take result.kept space.new) result.program (run_of result.state readings.new locations.new sums.new counts.new ring.new) }
    ensures kept_bound { result.kept ≤ 16384 }
{
    let i = (p.locations as usize).min(2000);
    let m = (p.sums as usize).min(2000);
    let step = run_lines(
        p,
        state,
        &space[from..end],
        readings,
        &mut locations[..i],
        &mut sums[..m],
        counts,
        ring,
    );
    let left = step.state;
    let used = step.used;
    if step.refusal != 0 {
        return Lister {
            stage: Stage::Refused(step.refusal, 0, 0),
            kept: 0,
            program: p,
            state: left,
        };
    }
    let kept = keep(space, from, used, end);
    if 25 < kept {
        return Lister {
            stage: Stage::Refused(1, 0, 0),
            kept: 0,
            program: p,
            state: left,
        };
    }
    Lister {
        stage: Stage::Lines,
        kept,
        program: p,
        state: left,
    }
}

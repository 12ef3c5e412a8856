// The text, as far as it was read.
ghost use Rattle.std.specs.Prelude.{◌≡◌, ◌≤◌, length, take};
ghost use Rattle.spec_listing.specs.Step.{run_of};
ghost use Rattle.spec_listing.specs.Reading.{Room, Opened};

use crate::Lister;
use crate::lines::follow;
use base_program::Program;
use spec_calls::State;
use spec_check::Verdict;
use spec_listing::Stage;

// Looks for the text's end in all that was read. A text that has ended is checked, and what stands behind it is followed.
pub fn open_text(
    none: Program,
    state: State,
    space: &mut [u8],
    filled: usize,
    readings: &mut [f32],
    locations: &mut [f32],
    sums: &mut [f32],
    counts: &mut [u32],
    ring: &mut [u16],
) -> Lister
    requires { (filled ≤ length space.old) × Room readings.old locations.old sums.old }
    ensures opened { Opened (take filled space.old) (run_of state readings.old locations.old sums.old counts.old ring.old) result.stage (take result.kept space.new) result.program (run_of result.state readings.new locations.new sums.new counts.new ring.new) }
    ensures kept_bound { result.kept ≤ 16384 }
{
    let Some(end) = listing_input::find_end(&space[..filled]) else {
        if 16384 < filled {
            return Lister {
                stage: Stage::Refused(1, 0, 0),
                kept: 0,
                program: none,
                state,
            };
        }
        return Lister {
            stage: Stage::Text,
            kept: filled,
            program: none,
            state,
        };
    };
    let checked = logger::check_text(&space[..end]);
    let v = checked.verdict;
    let p = checked.program;
    match v {
        Verdict::Fault(number, table, entry) => Lister {
            stage: Stage::Refused(number, table, entry),
            kept: 0,
            program: p,
            state,
        },
        Verdict::Pass(_, _) => follow(
            p, state, space, end, filled, readings, locations, sums, counts, ring,
        ),
    }
}

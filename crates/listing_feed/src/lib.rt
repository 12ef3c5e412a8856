// What the listing program makes of its input, piece by piece: a keyed text, then readings and ticks.
#![tactic(auto)]

mod lines;
mod text;

ghost use Rattle.std.specs.Prelude.{◌≡◌, ◌≤◌, length, take, drop};
ghost use Rattle.spec_calls.specs.Stores.{fresh_state};
ghost use Rattle.spec_listing.specs.declared.Stage.{Stage};
ghost use Rattle.spec_listing.specs.Step.{run_of};
ghost use Rattle.spec_listing.specs.Reading.{Room, Taken};

use base_program::Program;
use lines::follow;
use spec_calls::State;
use spec_listing::Stage;
use text::open_text;

// What the input so far has come to; how many bytes of it are kept; the record of a text that passed, and the run state.
#[derive(Clone, Copy)]
pub struct Lister {
    pub stage: Stage,
    pub kept: usize,
    pub program: Program,
    pub state: State,
}

pub fn begin() -> Lister
    ensures { (result.stage ≡ Stage.Text) × ((result.kept ≡ 0) × (result.state ≡ fresh_state)) }
{
    Lister {
        stage: Stage::Text,
        kept: 0,
        program: base_program::empty_program(),
        state: logger::fresh(),
    }
}

// Takes the piece that stands behind the kept bytes, up to `filled`.
pub fn feed(
    l: Lister,
    space: &mut [u8],
    filled: usize,
    readings: &mut [f32],
    locations: &mut [f32],
    sums: &mut [f32],
    counts: &mut [u32],
    ring: &mut [u16],
) -> Lister
    requires { (l.kept ≤ filled) × ((filled ≤ length space.old) × Room readings.old locations.old sums.old) }
    ensures taken { Taken l.stage (take l.kept space.old) l.program (run_of l.state readings.old locations.old sums.old counts.old ring.old) (drop l.kept (take filled space.old)) result.stage (take result.kept space.new) result.program (run_of result.state readings.new locations.new sums.new counts.new ring.new) }
    ensures kept_bound { result.kept ≤ 16384 }
{
    let stage = l.stage;
    let p = l.program;
    let state = l.state;
    match stage {
        Stage::Text => open_text(
            p, state, space, filled, readings, locations, sums, counts, ring,
        ),
        Stage::Lines => follow(
            p, state, space, 0, filled, readings, locations, sums, counts, ring,
        ),
        Stage::Refused(number, table, entry) => Lister {
            stage: Stage::Refused(number, table, entry),
            kept: 0,
            program: p,
            state,
        },
    }
}

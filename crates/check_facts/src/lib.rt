// What the first walk of the check finds of an entry, as numbers.
#![tactic(auto)]

ghost use Rattle.std.specs.Prelude.{◌≡◌};
ghost use Rattle.base_program.specs.Flow.{command_flow};
ghost use Rattle.record_codes.specs.Loaded.{decode};
ghost use Rattle.check_reach.specs.Reached.{reach};
ghost use Rattle.check_facts.specs.Told.{facts};

use base_program::Command;
use check_reach::Reach;
use record_codes::encode_flow;

// `fits`: its numbers are in range (fault 2); `code`: its control-flow kind as a number; `taken`: the sums that it takes; `need`: what it needs of
// I, on the last pass of a loop, 0 where I is enough on every pass.
#[derive(Clone, Copy)]
pub struct Facts {
    pub fits: bool,
    pub code: u32,
    pub taken: u8,
    pub need: u32,
}

pub fn facts_with(fits: bool, code: u32, taken: u8, far: Reach, most: u16) -> Facts
    ensures { result ≡ facts fits code taken far most }
{
    Facts {
        fits,
        code,
        taken,
        need: check_reach::need_in(far, most),
    }
}

// No location and no channel.
pub fn nowhere() -> Reach
    ensures { result ≡ reach 0 0 }
{
    Reach { fixed: 0, moved: 0 }
}

pub fn command_code(c: Command) -> u32
    ensures { decode result ≡ command_flow c }
{
    encode_flow(base_program::flow_of_command(c))
}

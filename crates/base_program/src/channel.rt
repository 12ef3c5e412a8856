// Channel numbers over all seven cards.
ghost use Rattle.std.specs.Prelude.{◌≡◌};
ghost use Rattle.base_program.specs.Ranges.{Inside, cards, single_channels, differential_channels};
ghost use Rattle.base_program.specs.Channel.{differential_numbers, single_on, differential_on, inputs};

use crate::{Differential, Inputs, SingleEnded};

// Channel 1 to 28 of a card 1 to 7.
#[tactic(auto, unfolding(crate::specs::Channel::single_on))]
pub fn single_on(card: u8, channel: u8) -> SingleEnded
    requires { Inside cards card × Inside single_channels channel }
    ensures { result ≡ single_on card channel }
{
    SingleEnded((card - 1) * 28 + channel)
}

// Channel 1 to 14 of a card 1 to 7.
#[tactic(auto, unfolding(crate::specs::Channel::differential_on))]
pub fn differential_on(card: u8, channel: u8) -> Differential
    requires { Inside cards card × Inside differential_channels channel }
    ensures { result ≡ differential_on card channel }
{
    Differential((card - 1) * 14 + channel)
}

// 'Differential channel d reads single-ended 2d - 1 less 2d.'
#[tactic(auto, unfolding(crate::specs::Channel::inputs))]
pub fn inputs_of(d: Differential) -> Inputs
    requires { Inside differential_numbers d.0 }
    ensures { result ≡ inputs d }
{
    Inputs {
        high: SingleEnded(2 * d.0 - 1),
        low: SingleEnded(2 * d.0),
    }
}

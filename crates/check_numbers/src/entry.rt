// The numbers of an entry: those that fault 2 judges.
ghost use Rattle.std.specs.Prelude.{◌≡◌, ◌&&◌};
ghost use Rattle.base_float.specs.Finite.{finite};
ghost use Rattle.spec_check.specs.Ranges.{is_reps, command_in_range, is_unconditional};
ghost use Rattle.base_program.specs.Ranges.{◌to◌, within, range_codes, minutes_into, minute_intervals};
ghost use Rattle.base_program.specs.Channel.{single_numbers};

use crate::number::{is_label, is_reps};
use base_program::Command;

#[tactic(auto, unfolding(spec_check::specs::Ranges::command_in_range))]
pub fn command_in_range(c: Command) -> bool
    ensures { result ≡ command_in_range c }
{
    match c {
        Command::Stop => true,
        Command::Call(k) => is_label(k),
        Command::Raise(f) => f <= 9,
        Command::Lower(f) => f <= 9,
        Command::Then => true,
        Command::ExitIfTrue => true,
        Command::ExitIfFalse => true,
        Command::PortHigh(p) => (1..=8).contains(&p),
        Command::PortLow(p) => (1..=8).contains(&p),
    }
}

// 86 takes neither 30 nor 32.
#[tactic(auto, unfolding(spec_check::specs::Ranges::is_unconditional))]
pub fn is_unconditional(c: Command) -> bool
    ensures { result ≡ is_unconditional c }
{
    match c {
        Command::Stop => true,
        Command::Call(_) => true,
        Command::Raise(_) => true,
        Command::Lower(_) => true,
        Command::Then => false,
        Command::ExitIfTrue => true,
        Command::ExitIfFalse => false,
        Command::PortHigh(_) => true,
        Command::PortLow(_) => true,
    }
}

// The multiplier and the offset of a measurement.
#[tactic(auto, using(base_float::specs::Laws::is_finite_says))]
fn is_scale(multiplier: f32, offset: f32) -> bool
    ensures { result ≡ finite multiplier && finite offset }
{
    let offset_known = offset.is_finite();
    multiplier.is_finite() && offset_known
}

// A measurement, on a channel from 1 to `channels`.
pub fn measure_in_range(
    reps: u8,
    range: u8,
    channel: u8,
    channels: u16,
    multiplier: f32,
    offset: f32,
) -> bool
    ensures { result ≡ is_reps reps && (within range_codes range && (within (single_numbers.least to channels) channel && (finite multiplier && finite offset))) }
{
    let scale = is_scale(multiplier, offset);
    let on = (1..=channels).contains(&u16::from(channel));
    let range_known = (1..=18).contains(&range);
    is_reps(reps) && range_known && on && scale
}

// 92: minutes into an interval, and the command.
pub fn time_in_range(into: u16, interval: u16, c: Command) -> bool
    ensures { result ≡ within minutes_into into && (within minute_intervals interval && command_in_range c) }
{
    let known = command_in_range(c);
    let interval_known = (1..=1440).contains(&interval);
    into <= 1439 && interval_known && known
}

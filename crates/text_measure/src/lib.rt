// Entries that measure, 1 and 2, made from their items.
#![tactic(auto)]

ghost use Rattle.std.specs.Prelude.{◌≡◌, ◌≤◌, length};
ghost use Rattle.base_program.specs.Ranges.{◌to◌, Inside, cards, single_channels};
ghost use Rattle.text_parameters.specs.Entry.{channels, measurement_of, measured};

use base_program::{Instruction, Location, Scale};
use text_items::Items;
use text_parameters::{MALFORMED, fixed_at, item_number, location_at};

#[tactic(auto, unfolding(text_parameters::specs::Entry::channels))]
fn channels_of(n: u32) -> u32
    ensures { ((single_channels.least to result) ≡ channels n) × (result ≤ single_channels.most) }
{
    if n == 1 { 28 } else { 14 }
}

#[tactic(auto, unfolding(text_parameters::specs::Entry::measurement_of, text_parameters::specs::Entry::channels))]
fn measurement_of(
    n: u32,
    reps: u8,
    range: u8,
    card: u8,
    channel: u8,
    location: Location,
    scale: Scale,
) -> Instruction
    requires { Inside cards card × Inside (channels n) channel }
    ensures { result ≡ measurement_of n reps range card channel location scale }
{
    if n == 1 {
        Instruction::MeasureSingle {
            reps,
            range,
            channel: base_program::single_on(card, channel),
            location,
            scale,
        }
    } else {
        Instruction::MeasureDifferential {
            reps,
            range,
            channel: base_program::differential_on(card, channel),
            location,
            scale,
        }
    }
}

// 1 and 2.
#[tactic(auto, unfolding(text_parameters::specs::Entry::measured))]
pub fn measure(items: &Items, n: u32) -> Result<Instruction, u8>
    requires { length items.now ≡ 8 }
    ensures { result ≡ measured n items.now }
{
    let reps = item_number(items, 1, 1, 99).ok_or(MALFORMED)?;
    let range = item_number(items, 2, 1, 18).ok_or(MALFORMED)?;
    let card = item_number(items, 3, 1, 7).ok_or(MALFORMED)?;
    let channel = item_number(items, 4, 1, channels_of(n)).ok_or(MALFORMED)?;
    let l = location_at(items, 5).ok_or(MALFORMED)?;
    let multiplier = fixed_at(items, 6).ok_or(MALFORMED)?;
    let offset = fixed_at(items, 7).ok_or(MALFORMED)?;
    let scale = Scale { multiplier, offset };
    Ok(measurement_of(
        n,
        reps as u8,
        range as u8,
        card as u8,
        channel as u8,
        l,
        scale,
    ))
}

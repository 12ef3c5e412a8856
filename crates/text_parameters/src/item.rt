// Parameters, each read from its item.
ghost use Rattle.std.specs.Prelude.{◌≡◌, ◌≤◌, ◌<◌, length, IfSome};
ghost use Rattle.text_number.specs.Keyed.{whole_of};
ghost use Rattle.text_items.specs.Split.{is_same};
ghost use Rattle.text_parameters.specs.Parameter.{item, number_in, location_in, fixed_in, command_keyed, command_in, unconditional_in};
ghost use Rattle.base_program.specs.Ranges.{◌to◌};
ghost use Rattle.base_program.specs.Codes.{is_label};

use base_program::{Command, Location};
use text_items::Items;

// Item k is this word.
pub fn item_is(items: &Items, k: usize, word: &[u8]) -> bool
    requires { (k < length items.now) × (k < 8) }
    ensures { result ≡ is_same (item items.now k) word.now }
{
    items.item(k) == word
}

// Item k as a whole number.
pub fn whole_at(items: &Items, k: usize) -> Option<u32>
    requires { (k < length items.now) × (k < 8) }
    ensures { result ≡ whole_of (item items.now k) }
{
    text_number::read_whole(items.item(k))
}

// Item k as a number in its range.
#[tactic(auto, unfolding(crate::specs::Parameter::number_in, crate::specs::Parameter::ranged))]
pub fn item_number(items: &Items, k: usize, least: u32, most: u32) -> Option<u16>
    requires { (k < length items.now) × ((k < 8) × (most ≤ 65535)) }
    ensures said { result ≡ number_in (least to most) items.now k }
    ensures within { IfSome result (λ n. (least ≤ n) × (n ≤ most)) }
{
    let n = whole_at(items, k)?;
    if least <= n && n <= most {
        Some(n as u16)
    } else {
        None
    }
}

// Item k as a location; a number that no record holds is kept as 65,535.
#[tactic(auto, unfolding(crate::specs::Parameter::location_in, crate::specs::Parameter::placed))]
pub fn location_at(items: &Items, k: usize) -> Option<Location>
    requires { (k < length items.now) × (k < 8) }
    ensures { result ≡ location_in items.now k }
{
    let l = text_number::read_location(items.item(k))?;
    Some(Location {
        number: l.number.min(65535) as u16,
        indexed: l.indexed,
    })
}

// Item k as F, a multiplier or an offset.
#[tactic(auto, unfolding(crate::specs::Parameter::fixed_in))]
pub fn fixed_at(items: &Items, k: usize) -> Option<f32>
    requires { (k < length items.now) × (k < 8) }
    ensures { result ≡ fixed_in items.now k }
{
    text_fixed::read_fixed(items.item(k))
}

// A subroutine's number.
pub fn is_label(n: u32) -> bool
    ensures { result ≡ is_label n }
{
    matches!(n, 1..=9 | 79..=99)
}

#[tactic(auto, unfolding(crate::specs::Parameter::command_keyed, crate::specs::Parameter::port_of))]
fn command_of(n: u32) -> Option<Command>
    ensures { result ≡ command_keyed n }
{
    match n {
        0 => Some(Command::Stop),
        1..=9 | 79..=99 => Some(Command::Call(n as u8)),
        10..=19 => Some(Command::Raise((n - 10) as u8)),
        20..=29 => Some(Command::Lower((n - 20) as u8)),
        30 => Some(Command::Then),
        31 => Some(Command::ExitIfTrue),
        32 => Some(Command::ExitIfFalse),
        41..=48 => Some(Command::PortHigh((n - 40) as u8)),
        51..=58 => Some(Command::PortLow((n - 50) as u8)),
        _ => None,
    }
}

// Item k as a command.
#[tactic(auto, unfolding(crate::specs::Parameter::command_in, crate::specs::Parameter::command_said))]
pub fn command_at(items: &Items, k: usize) -> Option<Command>
    requires { (k < length items.now) × (k < 8) }
    ensures { result ≡ command_in items.now k }
{
    command_of(whole_at(items, k)?)
}

// Item k as the command of 86.
#[tactic(auto, unfolding(crate::specs::Parameter::unconditional_in, crate::specs::Parameter::unconditional))]
pub fn unconditional_at(items: &Items, k: usize) -> Option<Command>
    requires { (k < length items.now) × (k < 8) }
    ensures { result ≡ unconditional_in items.now k }
{
    let n = whole_at(items, k)?;
    if n == 30 || n == 32 {
        return None;
    }
    command_of(n)
}

// Entries that loop or go by the time, 77, 87 and 92, each made from its items.
#![tactic(auto)]

ghost use Rattle.std.specs.Prelude.{◌≡◌, length};
ghost use Rattle.text_parameters.specs.Entry.{timed, looped, if_time};

use base_program::{Instruction, TimeCode};
use text_items::Items;
use text_parameters::{MALFORMED, command_at, item_number};

// 77.
#[tactic(auto, unfolding(text_parameters::specs::Entry::timed))]
pub fn store_time(items: &Items) -> Result<Instruction, u8>
    requires { length items.now ≡ 2 }
    ensures { result ≡ timed items.now }
{
    let n = item_number(items, 1, 10, 110).ok_or(MALFORMED)?;
    let Ok(code) = TimeCode::try_from(n) else {
        return Err(MALFORMED);
    };
    Ok(Instruction::StoreTime(code))
}

// 87.
#[tactic(auto, unfolding(text_parameters::specs::Entry::looped))]
pub fn repeat(items: &Items) -> Result<Instruction, u8>
    requires { length items.now ≡ 3 }
    ensures { result ≡ looped items.now }
{
    let delay = item_number(items, 1, 0, 0).ok_or(MALFORMED)?;
    let count = item_number(items, 2, 1, 9999).ok_or(MALFORMED)?;
    Ok(Instruction::Loop { delay, count })
}

// 92.
#[tactic(auto, unfolding(text_parameters::specs::Entry::if_time))]
pub fn if_time(items: &Items) -> Result<Instruction, u8>
    requires { length items.now ≡ 4 }
    ensures { result ≡ if_time items.now }
{
    let into = item_number(items, 1, 0, 1439).ok_or(MALFORMED)?;
    let interval = item_number(items, 2, 1, 1440).ok_or(MALFORMED)?;
    let command = command_at(items, 3).ok_or(MALFORMED)?;
    Ok(Instruction::IfTime {
        into,
        interval,
        command,
    })
}

// Entries that control, each made from its items.
#![tactic(auto)]

ghost use Rattle.std.specs.Prelude.{◌≡◌, ◌<◌, length};
ghost use Rattle.base_program.specs.Ranges.{Inside};
ghost use Rattle.text_parameters.specs.Entry.{labelled, done, if_locations, if_fixed, flag_tests, flag_test, if_flag, bare};

use base_program::{Command, Instruction, Relation};
use text_items::Items;
use text_parameters::{
    MALFORMED, command_at, fixed_at, is_label, item_number, location_at, unconditional_at,
};

// 85.
#[tactic(auto, unfolding(text_parameters::specs::Entry::labelled))]
pub fn label(items: &Items) -> Result<Instruction, u8>
    requires { length items.now ≡ 2 }
    ensures { result ≡ labelled items.now }
{
    let n = item_number(items, 1, 1, 99).ok_or(MALFORMED)?;
    if is_label(n as u32) {
        return Ok(Instruction::Subroutine(n as u8));
    }
    Err(MALFORMED)
}

// 86.
#[tactic(auto, unfolding(text_parameters::specs::Entry::done))]
pub fn carry_out(items: &Items) -> Result<Instruction, u8>
    requires { length items.now ≡ 2 }
    ensures { result ≡ done items.now }
{
    let c = unconditional_at(items, 1).ok_or(MALFORMED)?;
    Ok(Instruction::Do(c))
}

// 88.
#[tactic(auto, unfolding(text_parameters::specs::Entry::if_locations))]
pub fn if_locations(items: &Items) -> Result<Instruction, u8>
    requires { length items.now ≡ 5 }
    ensures { result ≡ if_locations items.now }
{
    let x = location_at(items, 1).ok_or(MALFORMED)?;
    let r = item_number(items, 2, 1, 4).ok_or(MALFORMED)?;
    let y = location_at(items, 3).ok_or(MALFORMED)?;
    let c = command_at(items, 4).ok_or(MALFORMED)?;
    Ok(Instruction::IfLocations(x, Relation::try_from(r).unwrap(), y, c))
}

// 89.
#[tactic(auto, unfolding(text_parameters::specs::Entry::if_fixed))]
pub fn if_fixed(items: &Items) -> Result<Instruction, u8>
    requires { length items.now ≡ 5 }
    ensures { result ≡ if_fixed items.now }
{
    let x = location_at(items, 1).ok_or(MALFORMED)?;
    let r = item_number(items, 2, 1, 4).ok_or(MALFORMED)?;
    let f = fixed_at(items, 3).ok_or(MALFORMED)?;
    let c = command_at(items, 4).ok_or(MALFORMED)?;
    Ok(Instruction::IfFixed(x, Relation::try_from(r).unwrap(), f, c))
}

#[tactic(auto, unfolding(text_parameters::specs::Entry::flag_test))]
fn flag_test(n: u16, command: Command) -> Instruction
    requires { Inside flag_tests n }
    ensures { result ≡ flag_test n command }
{
    if n < 20 {
        Instruction::IfFlag {
            flag: (n - 10) as u8,
            high: true,
            command,
        }
    } else {
        Instruction::IfFlag {
            flag: (n - 20) as u8,
            high: false,
            command,
        }
    }
}

// 91.
#[tactic(auto, unfolding(text_parameters::specs::Entry::if_flag))]
pub fn if_flag(items: &Items) -> Result<Instruction, u8>
    requires { length items.now ≡ 3 }
    ensures { result ≡ if_flag items.now }
{
    let n = item_number(items, 1, 10, 29).ok_or(MALFORMED)?;
    let c = command_at(items, 2).ok_or(MALFORMED)?;
    Ok(flag_test(n, c))
}

// 94 and 95.
#[tactic(auto, unfolding(text_parameters::specs::Entry::bare))]
pub fn bare_entry(n: u32) -> Result<Instruction, u8>
    ensures { result ≡ bare n }
{
    if n == 94 {
        Ok(Instruction::Else)
    } else {
        Ok(Instruction::End)
    }
}

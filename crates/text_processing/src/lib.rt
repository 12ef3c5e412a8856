// Entries that compute and store, each made from its items.
#![tactic(auto)]

ghost use Rattle.std.specs.Prelude.{◌≡◌, length};
ghost use Rattle.text_parameters.specs.Entry.{constant, copied, incremented, combination_of, combined, combined_fixed, output_of, output};

use base_program::{Instruction, Location};
use text_items::Items;
use text_parameters::{MALFORMED, fixed_at, item_number, location_at};

// 30.
#[tactic(auto, unfolding(text_parameters::specs::Entry::constant))]
pub fn set_fixed(items: &Items) -> Result<Instruction, u8>
    requires { length items.now ≡ 3 }
    ensures { result ≡ constant items.now }
{
    let f = fixed_at(items, 1).ok_or(MALFORMED)?;
    let z = location_at(items, 2).ok_or(MALFORMED)?;
    Ok(Instruction::SetFixed(f, z))
}

// 31.
#[tactic(auto, unfolding(text_parameters::specs::Entry::copied))]
pub fn copy(items: &Items) -> Result<Instruction, u8>
    requires { length items.now ≡ 3 }
    ensures { result ≡ copied items.now }
{
    let x = location_at(items, 1).ok_or(MALFORMED)?;
    let z = location_at(items, 2).ok_or(MALFORMED)?;
    Ok(Instruction::Copy(x, z))
}

// 32.
#[tactic(auto, unfolding(text_parameters::specs::Entry::incremented))]
pub fn increment(items: &Items) -> Result<Instruction, u8>
    requires { length items.now ≡ 2 }
    ensures { result ≡ incremented items.now }
{
    let z = location_at(items, 1).ok_or(MALFORMED)?;
    Ok(Instruction::Increment(z))
}

#[tactic(auto, unfolding(text_parameters::specs::Entry::combination_of))]
fn combination_of(n: u32, x: Location, y: Location, z: Location) -> Instruction
    ensures { result ≡ combination_of n x y z }
{
    match n {
        33 => Instruction::Add(x, y, z),
        35 => Instruction::Subtract(x, y, z),
        36 => Instruction::Multiply(x, y, z),
        _ => Instruction::Divide(x, y, z),
    }
}

// 33, 35, 36 and 38.
#[tactic(auto, unfolding(text_parameters::specs::Entry::combined))]
pub fn combine(items: &Items, n: u32) -> Result<Instruction, u8>
    requires { length items.now ≡ 4 }
    ensures { result ≡ combined n items.now }
{
    let x = location_at(items, 1).ok_or(MALFORMED)?;
    let y = location_at(items, 2).ok_or(MALFORMED)?;
    let z = location_at(items, 3).ok_or(MALFORMED)?;
    Ok(combination_of(n, x, y, z))
}

// 34 and 37.
#[tactic(auto, unfolding(text_parameters::specs::Entry::combined_fixed))]
pub fn combine_fixed(items: &Items, n: u32) -> Result<Instruction, u8>
    requires { length items.now ≡ 4 }
    ensures { result ≡ combined_fixed n items.now }
{
    let x = location_at(items, 1).ok_or(MALFORMED)?;
    let f = fixed_at(items, 2).ok_or(MALFORMED)?;
    let z = location_at(items, 3).ok_or(MALFORMED)?;
    if n == 34 {
        Ok(Instruction::AddFixed(x, f, z))
    } else {
        Ok(Instruction::MultiplyFixed(x, f, z))
    }
}

#[tactic(auto, unfolding(text_parameters::specs::Entry::output_of))]
fn output_of(n: u32, reps: u8, x: Location) -> Instruction
    ensures { result ≡ output_of n reps x }
{
    match n {
        70 => Instruction::Sample(reps, x),
        71 => Instruction::Average(reps, x),
        72 => Instruction::Total(reps, x),
        73 => Instruction::Maximum(reps, x),
        _ => Instruction::Minimum(reps, x),
    }
}

// 70 to 74.
#[tactic(auto, unfolding(text_parameters::specs::Entry::output))]
pub fn store(items: &Items, n: u32) -> Result<Instruction, u8>
    requires { length items.now ≡ 3 }
    ensures { result ≡ output n items.now }
{
    let reps = item_number(items, 1, 1, 99).ok_or(MALFORMED)?;
    let x = location_at(items, 2).ok_or(MALFORMED)?;
    Ok(output_of(n, reps as u8, x))
}

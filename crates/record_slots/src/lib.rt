// An instruction as the numbers and values of its slot.
#![tactic(auto)]

ghost use Rattle.std.specs.Prelude.{◌≡◌, true};
ghost use Rattle.record_layout.specs.Layout.{bit_of, relation_number, command_number, eight, one, two, three, output_numbers, slot_numbers, slot_values};
ghost use Rattle.record_layout.specs.Kinds.{is_control};

use base_program::{Command, Instruction, Location, Relation};

#[tactic(auto, unfolding(record_layout::specs::Layout::command_number))]
fn command_number(c: Command) -> u16
    ensures { result ≡ command_number c }
{
    match c {
        Command::Stop => 0,
        Command::Call(k) => 256 + u16::from(k),
        Command::Raise(f) => 512 + u16::from(f),
        Command::Lower(f) => 768 + u16::from(f),
        Command::Then => 1024,
        Command::ExitIfTrue => 1280,
        Command::ExitIfFalse => 1536,
        Command::PortHigh(p) => 1792 + u16::from(p),
        Command::PortLow(p) => 2048 + u16::from(p),
    }
}

fn one_at(n: u16, x: Location) -> [u16; 8]
    ensures { result ≡ one n x }
{
    [n, x.number, u16::from(x.indexed), 0, 0, 0, 0, 0]
}

fn two_at(n: u16, x: Location, z: Location) -> [u16; 8]
    ensures { result ≡ two n x z }
{
    [
        n,
        x.number,
        u16::from(x.indexed),
        z.number,
        u16::from(z.indexed),
        0,
        0,
        0,
    ]
}

fn three_at(n: u16, x: Location, y: Location, z: Location) -> [u16; 8]
    ensures { result ≡ three n x y z }
{
    [
        n,
        x.number,
        u16::from(x.indexed),
        y.number,
        u16::from(y.indexed),
        z.number,
        u16::from(z.indexed),
        0,
    ]
}

fn stored_at(n: u16, reps: u8, x: Location) -> [u16; 8]
    ensures { result ≡ output_numbers n reps x }
{
    [
        n,
        u16::from(reps),
        x.number,
        u16::from(x.indexed),
        0,
        0,
        0,
        0,
    ]
}

fn measured_at(n: u16, reps: u8, range: u8, channel: u8, x: Location) -> [u16; 8]
    ensures { result ≡ eight n reps range channel x.number (bit_of x.indexed) 0 }
{
    [
        n,
        u16::from(reps),
        u16::from(range),
        u16::from(channel),
        x.number,
        u16::from(x.indexed),
        0,
        0,
    ]
}

fn if_locations_at(x: Location, r: Relation, y: Location, c: Command) -> [u16; 8]
    ensures { result ≡ eight 88 x.number (bit_of x.indexed) (relation_number r) y.number (bit_of y.indexed) (command_number c) }
{
    [
        88,
        x.number,
        u16::from(x.indexed),
        u16::from(r),
        y.number,
        u16::from(y.indexed),
        command_number(c),
        0,
    ]
}

fn if_fixed_at(x: Location, r: Relation, c: Command) -> [u16; 8]
    ensures { result ≡ eight 89 x.number (bit_of x.indexed) (relation_number r) (command_number c) 0 0 }
{
    [
        89,
        x.number,
        u16::from(x.indexed),
        u16::from(r),
        command_number(c),
        0,
        0,
        0,
    ]
}

// 77 to 95
#[tactic(auto, unfolding(record_layout::specs::Layout::slot_numbers, record_layout::specs::Kinds::is_control))]
fn control_numbers(i: Instruction) -> [u16; 8]
    requires { is_control i ≡ true }
    ensures { result ≡ slot_numbers i }
{
    match i {
        Instruction::Else => [94, 0, 0, 0, 0, 0, 0, 0],
        Instruction::StoreTime(c) => [77, u16::from(c), 0, 0, 0, 0, 0, 0],
        Instruction::Subroutine(k) => [85, u16::from(k), 0, 0, 0, 0, 0, 0],
        Instruction::Do(c) => [86, command_number(c), 0, 0, 0, 0, 0, 0],
        Instruction::Loop { delay, count } => [87, delay, count, 0, 0, 0, 0, 0],
        Instruction::IfLocations(x, r, y, c) => if_locations_at(x, r, y, c),
        Instruction::IfFixed(x, r, _, c) => if_fixed_at(x, r, c),
        Instruction::IfFlag {
            flag,
            high,
            command,
        } => [
            91,
            u16::from(flag),
            u16::from(high),
            command_number(command),
            0,
            0,
            0,
            0,
        ],
        Instruction::IfTime {
            into,
            interval,
            command,
        } => [92, into, interval, command_number(command), 0, 0, 0, 0],
        _ => [95, 0, 0, 0, 0, 0, 0, 0],
    }
}

// A slot's eight numbers.
#[tactic(auto, unfolding(record_layout::specs::Layout::slot_numbers, record_layout::specs::Kinds::is_control))]
pub fn numbers_of(i: Instruction) -> [u16; 8]
    ensures { result ≡ slot_numbers i }
{
    match i {
        Instruction::MeasureSingle {
            reps,
            range,
            channel,
            location,
            scale: _,
        } => measured_at(1, reps, range, channel.0, location),
        Instruction::MeasureDifferential {
            reps,
            range,
            channel,
            location,
            scale: _,
        } => measured_at(2, reps, range, channel.0, location),
        Instruction::SetFixed(_, z) => one_at(30, z),
        Instruction::Copy(x, z) => two_at(31, x, z),
        Instruction::Increment(z) => one_at(32, z),
        Instruction::Add(x, y, z) => three_at(33, x, y, z),
        Instruction::AddFixed(x, _, z) => two_at(34, x, z),
        Instruction::Subtract(x, y, z) => three_at(35, x, y, z),
        Instruction::Multiply(x, y, z) => three_at(36, x, y, z),
        Instruction::MultiplyFixed(x, _, z) => two_at(37, x, z),
        Instruction::Divide(x, y, z) => three_at(38, x, y, z),
        Instruction::Sample(reps, x) => stored_at(70, reps, x),
        Instruction::Average(reps, x) => stored_at(71, reps, x),
        Instruction::Total(reps, x) => stored_at(72, reps, x),
        Instruction::Maximum(reps, x) => stored_at(73, reps, x),
        Instruction::Minimum(reps, x) => stored_at(74, reps, x),
        _ => control_numbers(i),
    }
}

// A slot's two values.
#[tactic(auto, unfolding(record_layout::specs::Layout::slot_values))]
pub fn values_of(i: Instruction) -> [f32; 2]
    ensures { result ≡ slot_values i }
{
    match i {
        Instruction::MeasureSingle {
            reps: _,
            range: _,
            channel: _,
            location: _,
            scale,
        } => [scale.multiplier, scale.offset],
        Instruction::MeasureDifferential {
            reps: _,
            range: _,
            channel: _,
            location: _,
            scale,
        } => [scale.multiplier, scale.offset],
        Instruction::SetFixed(f, _) => [f, 0.0f32],
        Instruction::AddFixed(_, f, _) => [f, 0.0f32],
        Instruction::MultiplyFixed(_, f, _) => [f, 0.0f32],
        Instruction::IfFixed(_, _, f, _) => [f, 0.0f32],
        _ => [0.0f32, 0.0f32],
    }
}

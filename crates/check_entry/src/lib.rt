// What the first walk of the check finds of an entry, by one match: whether its numbers are in range, its control-flow kind, its sums, and what it
// needs of I.
#![tactic(auto)]

ghost use Rattle.std.specs.Prelude.{◌≡◌, ◌&&◌, eqb};
ghost use Rattle.base_float.specs.Finite.{finite};
ghost use Rattle.base_program.specs.Ranges.{within, only_delay, passes, flags};
ghost use Rattle.spec_check.specs.Ranges.{command_in_range, is_unconditional};
ghost use Rattle.record_fields.specs.Numbers.{SlotLent, lies};
ghost use Rattle.check_facts.specs.Told.{FactsTold};

use base_program::{Command, Flow, Instruction};
use check_facts::{Facts, command_code, facts_with, nowhere};
use check_numbers::{
    command_in_range, is_label, is_reps, is_unconditional, measure_in_range, time_in_range,
};
use check_reach::{differential_reach, one_reach, single_reach, three_reach, two_reach};
use record_codes::{ELSE, END, encode_flow};
use record_decoder::{CHECK, instruction_at};

// The tests that `&&` joins are made before it: one branch for all is faster than one for each.
// 86
fn do_in_range(c: Command) -> bool
    ensures { result ≡ command_in_range c && is_unconditional c }
{
    let free = is_unconditional(c);
    command_in_range(c) && free
}

// 87
fn loop_in_range(delay: u16, count: u16) -> bool
    ensures { result ≡ eqb delay only_delay && within passes count }
{
    delay == 0 && (1..=9999).contains(&count)
}

// 89
#[tactic(auto, using(base_float::specs::Laws::is_finite_says))]
fn fixed_in_range(f: f32, c: Command) -> bool
    ensures { result ≡ finite f && command_in_range c }
{
    let known = command_in_range(c);
    f.is_finite() && known
}

// 91
fn flag_in_range(flag: u8, c: Command) -> bool
    ensures { result ≡ within flags flag && command_in_range c }
{
    let known = command_in_range(c);
    flag <= 9 && known
}

// The facts of an entry, where I is `most`: one match for all instructions.
fn facts_of(i: Instruction, most: u16) -> Facts
    ensures { FactsTold most i result }
{
    match i {
        Instruction::End => facts_with(true, END, 0, nowhere(), most),
        Instruction::Else => facts_with(true, ELSE, 0, nowhere(), most),
        Instruction::MeasureSingle {
            reps,
            range,
            channel,
            location: x,
            scale,
        } => facts_with(
            measure_in_range(reps, range, channel.0, 196, scale.multiplier, scale.offset),
            0,
            0,
            single_reach(channel.0, reps, x.number, x.indexed),
            most,
        ),
        Instruction::MeasureDifferential {
            reps,
            range,
            channel,
            location: x,
            scale,
        } => facts_with(
            measure_in_range(reps, range, channel.0, 98, scale.multiplier, scale.offset),
            0,
            0,
            differential_reach(channel.0, reps, x.number, x.indexed),
            most,
        ),
        Instruction::SetFixed(f, z) => facts_with(
            f.is_finite(),
            0,
            0,
            one_reach(z.number, z.indexed, 1),
            most,
        ),
        Instruction::Copy(x, z) => facts_with(
            true,
            0,
            0,
            two_reach(x.number, x.indexed, z.number, z.indexed),
            most,
        ),
        Instruction::Increment(z) => facts_with(
            true,
            0,
            0,
            one_reach(z.number, z.indexed, 1),
            most,
        ),
        Instruction::Add(x, y, z) => facts_with(
            true,
            0,
            0,
            three_reach(
                x.number, x.indexed, y.number, y.indexed, z.number, z.indexed,
            ),
            most,
        ),
        Instruction::AddFixed(x, f, z) => facts_with(
            f.is_finite(),
            0,
            0,
            two_reach(x.number, x.indexed, z.number, z.indexed),
            most,
        ),
        Instruction::Subtract(x, y, z) => facts_with(
            true,
            0,
            0,
            three_reach(
                x.number, x.indexed, y.number, y.indexed, z.number, z.indexed,
            ),
            most,
        ),
        Instruction::Multiply(x, y, z) => facts_with(
            true,
            0,
            0,
            three_reach(
                x.number, x.indexed, y.number, y.indexed, z.number, z.indexed,
            ),
            most,
        ),
        Instruction::MultiplyFixed(x, f, z) => facts_with(
            f.is_finite(),
            0,
            0,
            two_reach(x.number, x.indexed, z.number, z.indexed),
            most,
        ),
        Instruction::Divide(x, y, z) => facts_with(
            true,
            0,
            0,
            three_reach(
                x.number, x.indexed, y.number, y.indexed, z.number, z.indexed,
            ),
            most,
        ),
        Instruction::Sample(reps, x) => facts_with(
            is_reps(reps),
            0,
            0,
            one_reach(x.number, x.indexed, reps),
            most,
        ),
        Instruction::Average(reps, x) => facts_with(
            is_reps(reps),
            0,
            reps,
            one_reach(x.number, x.indexed, reps),
            most,
        ),
        Instruction::Total(reps, x) => facts_with(
            is_reps(reps),
            0,
            reps,
            one_reach(x.number, x.indexed, reps),
            most,
        ),
        Instruction::Maximum(reps, x) => facts_with(
            is_reps(reps),
            0,
            reps,
            one_reach(x.number, x.indexed, reps),
            most,
        ),
        Instruction::Minimum(reps, x) => facts_with(
            is_reps(reps),
            0,
            reps,
            one_reach(x.number, x.indexed, reps),
            most,
        ),
        Instruction::StoreTime(_) => facts_with(true, 0, 0, nowhere(), most),
        Instruction::Subroutine(k) => facts_with(
            is_label(k),
            encode_flow(Flow::Subroutine(k)),
            0,
            nowhere(),
            most,
        ),
        Instruction::Do(c) => facts_with(do_in_range(c), command_code(c), 0, nowhere(), most),
        Instruction::Loop { delay, count } => facts_with(
            loop_in_range(delay, count),
            encode_flow(Flow::Loop(count)),
            0,
            nowhere(),
            most,
        ),
        Instruction::IfLocations(x, _, y, c) => facts_with(
            command_in_range(c),
            command_code(c),
            0,
            two_reach(x.number, x.indexed, y.number, y.indexed),
            most,
        ),
        Instruction::IfFixed(x, _, f, c) => facts_with(
            fixed_in_range(f, c),
            command_code(c),
            0,
            one_reach(x.number, x.indexed, 1),
            most,
        ),
        Instruction::IfFlag {
            flag,
            high: _,
            command,
        } => facts_with(
            flag_in_range(flag, command),
            command_code(command),
            0,
            nowhere(),
            most,
        ),
        Instruction::IfTime {
            into,
            interval,
            command,
        } => facts_with(
            time_in_range(into, interval, command),
            command_code(command),
            0,
            nowhere(),
            most,
        ),
    }
}

// The facts of the entry in slot s.
pub fn facts_at(numbers: &[u16], values: &[f32], s: usize, most: u16) -> Facts
    requires { SlotLent numbers.now values.now s }
    ensures { FactsTold most (lies numbers.now values.now s) result }
{
    facts_of(instruction_at::<CHECK>(numbers, values, s), most)
}

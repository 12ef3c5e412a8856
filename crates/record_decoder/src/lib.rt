// The instruction in a slot of a record that lies in lent buffers. What is none of document 01's is read as 85 0.
#![tactic(auto)]

ghost use Rattle.std.specs.Prelude.{◌≡◌, MatchOption};
ghost use Rattle.record_layout.specs.Layout.{unknown};
ghost use Rattle.record_fields.specs.Numbers.{SlotLent, lies};

use base_program::{Differential, Instruction, Relation, SingleEnded, TimeCode};
use record_fields::{byte_at, field_at, known_command, location_at, scale_at, value_at};

// Those who read a slot. Each has a decoder of its own: one with a single caller is taken into it, and no instruction goes through memory.
pub const CHECK: bool = false;

pub const SCAN: bool = true;

// None where the slot's number, relation, code or kind of command is none of document 01's.
fn known_at<const READER: bool>(n: &[u16], v: &[f32], s: usize) -> Option<Instruction>
    requires { SlotLent n.now v.now s }
    ensures { MatchOption result (lies n.now v.now s ≡ unknown) (λ i. i ≡ lies n.now v.now s) }
{
    let instruction = match field_at(n, s, 0) {
        1 => Instruction::MeasureSingle {
            reps: byte_at(n, s, 1),
            range: byte_at(n, s, 2),
            channel: SingleEnded(byte_at(n, s, 3)),
            location: location_at(n, s, 4),
            scale: scale_at(v, s),
        },
        2 => Instruction::MeasureDifferential {
            reps: byte_at(n, s, 1),
            range: byte_at(n, s, 2),
            channel: Differential(byte_at(n, s, 3)),
            location: location_at(n, s, 4),
            scale: scale_at(v, s),
        },
        30 => Instruction::SetFixed(value_at(v, s), location_at(n, s, 1)),
        31 => Instruction::Copy(location_at(n, s, 1), location_at(n, s, 3)),
        32 => Instruction::Increment(location_at(n, s, 1)),
        33 => Instruction::Add(
            location_at(n, s, 1),
            location_at(n, s, 3),
            location_at(n, s, 5),
        ),
        34 => Instruction::AddFixed(location_at(n, s, 1), value_at(v, s), location_at(n, s, 3)),
        35 => Instruction::Subtract(
            location_at(n, s, 1),
            location_at(n, s, 3),
            location_at(n, s, 5),
        ),
        36 => Instruction::Multiply(
            location_at(n, s, 1),
            location_at(n, s, 3),
            location_at(n, s, 5),
        ),
        37 => Instruction::MultiplyFixed(
            location_at(n, s, 1),
            value_at(v, s),
            location_at(n, s, 3),
        ),
        38 => Instruction::Divide(
            location_at(n, s, 1),
            location_at(n, s, 3),
            location_at(n, s, 5),
        ),
        70 => Instruction::Sample(byte_at(n, s, 1), location_at(n, s, 2)),
        71 => Instruction::Average(byte_at(n, s, 1), location_at(n, s, 2)),
        72 => Instruction::Total(byte_at(n, s, 1), location_at(n, s, 2)),
        73 => Instruction::Maximum(byte_at(n, s, 1), location_at(n, s, 2)),
        74 => Instruction::Minimum(byte_at(n, s, 1), location_at(n, s, 2)),
        77 => Instruction::StoreTime(TimeCode::try_from(field_at(n, s, 1)).ok()?),
        85 => Instruction::Subroutine(byte_at(n, s, 1)),
        86 => Instruction::Do(known_command(field_at(n, s, 1))?),
        87 => Instruction::Loop {
            delay: field_at(n, s, 1),
            count: field_at(n, s, 2),
        },
        88 => Instruction::IfLocations(
            location_at(n, s, 1),
            Relation::try_from(field_at(n, s, 3)).ok()?,
            location_at(n, s, 4),
            known_command(field_at(n, s, 6))?,
        ),
        89 => Instruction::IfFixed(
            location_at(n, s, 1),
            Relation::try_from(field_at(n, s, 3)).ok()?,
            value_at(v, s),
            known_command(field_at(n, s, 4))?,
        ),
        91 => Instruction::IfFlag {
            flag: byte_at(n, s, 1),
            high: field_at(n, s, 2) != 0,
            command: known_command(field_at(n, s, 3))?,
        },
        92 => Instruction::IfTime {
            into: field_at(n, s, 1),
            interval: field_at(n, s, 2),
            command: known_command(field_at(n, s, 3))?,
        },
        94 => Instruction::Else,
        95 => Instruction::End,
        _ => return None,
    };
    Some(instruction)
}

pub fn instruction_at<const READER: bool>(n: &[u16], v: &[f32], s: usize) -> Instruction
    requires { SlotLent n.now v.now s }
    ensures { result ≡ lies n.now v.now s }
{
    known_at::<READER>(n, v, s).unwrap_or(Instruction::Subroutine(0))
}

// A record, written into lent buffers.
#![tactic(auto)]

ghost use Rattle.std.specs.Prelude.{◌≡◌, length};
ghost use Rattle.record_layout.specs.Layout.{numbers_of, values_of};

use base_program::{Instruction, Program};
use record_slots::{numbers_of, values_of};
use record_store::put_header;

// The record, every slot of it. Most slots of most records are End.
pub fn write_record(p: Program, numbers: &mut [u16], values: &mut [f32])
    requires { (length numbers.old ≡ 2385) × (length values.old ≡ 594) }
    ensures { (numbers.new ≡ numbers_of p) × (values.new ≡ values_of p) }
{
    put_header(numbers, p.locations, p.sums, p.intervals, p.lengths);
    for (s, slot) in p.slots.iter().enumerate() {
        let i = slot.instruction;
        if let Instruction::End = i {
            numbers[9 + 8 * s..17 + 8 * s].copy_from_slice(&[95, 0, 0, 0, 0, 0, 0, 0]);
            values[2 * s..2 * s + 2].copy_from_slice(&[0.0f32, 0.0f32]);
            continue;
        }
        numbers[9 + 8 * s..17 + 8 * s].copy_from_slice(&numbers_of(i));
        values[2 * s..2 * s + 2].copy_from_slice(&values_of(i));
    }
}

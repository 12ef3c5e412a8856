// What an entry's items say: its parameters, and the form of each instruction.
#![tactic(auto)]

mod instruction;
mod item;

pub use instruction::{form_of, parameters_of};
pub use item::{
    command_at, fixed_at, is_label, item_is, item_number, location_at, unconditional_at, whole_at,
};

// The fault of a parameter that is not of its kind or not in its range.
pub const MALFORMED: u8 = 2;

// The forms of an instruction's parameters.
#[derive(Clone, Copy)]
pub enum Form {
    // reps, range, card, channel, location, multiplier, offset
    Measurement,
    // F, Z
    Constant,
    // X, Z
    Copy,
    // Z
    Increment,
    // X, Y, Z
    Combination,
    // X, F, Z
    WithFixed,
    // reps, location
    Output,
    // code
    Time,
    // subroutine
    Subroutine,
    // command
    Do,
    // delay, count
    Loop,
    // X, relation, Y, command
    IfLocations,
    // X, relation, F, command
    IfFixed,
    // flag, command
    IfFlag,
    // minutes into, interval, command
    IfTime,
    // none
    Bare,
}

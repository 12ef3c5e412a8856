// The types of a keyed program, and what the check and the scan both ask of an entry.
#![tactic(auto)]

mod channel;
mod codes;
mod entry;
mod fault;
mod measure;

pub use channel::{differential_on, inputs_of, single_on};
pub use codes::{NoSuchNumber, code_of, relation_of};
pub use entry::{empty_program, flow_of, flow_of_command, slot_of, sums_of, wide};
pub use fault::fault_at;
pub use measure::scale_reading;

// The T of a tick counts eightieths of a second from midnight: those of a minute, and the last of a day.
pub const MINUTE: u32 = 4800;

pub const LAST_TIME: u32 = 6911999;

// A sample count goes no further.
pub const MOST_SAMPLES: u32 = 16777215;

// An Input Location. It is indexed where `--` is keyed behind it.
#[derive(Clone, Copy)]
pub struct Location {
    pub number: u16,
    pub indexed: bool,
}

// The multiplier and the offset of a measurement.
#[derive(Clone, Copy)]
pub struct Scale {
    pub multiplier: f32,
    pub offset: f32,
}

// A single-ended channel, 1 to 196: 28 on each of the cards 1 to 7.
#[derive(Clone, Copy)]
pub struct SingleEnded(pub u8);

// A differential channel, 1 to 98: 14 on each card.
#[derive(Clone, Copy)]
pub struct Differential(pub u8);

// The two single-ended channels of a differential one: its reading is that of `high` less that of `low`.
#[derive(Clone, Copy)]
pub struct Inputs {
    pub high: SingleEnded,
    pub low: SingleEnded,
}

#[derive(Clone, Copy)]
pub enum Relation {
    // 1
    Equal,
    // 2
    NotEqual,
    // 3
    AtLeast,
    // 4
    Below,
}

// What 77 stores.
#[derive(Clone, Copy)]
pub enum TimeCode {
    // 10
    HoursMinutes,
    // 100
    Day,
    // 110
    DayHoursMinutes,
}

#[derive(Clone, Copy)]
pub enum Command {
    // 0: to the end of the table
    Stop,
    // 1-9 and 79-99
    Call(u8),
    // 10-19: flag 0-9
    Raise(u8),
    // 20-29: flag 0-9
    Lower(u8),
    // 30: Then Do
    Then,
    // 31: exit the loop if true
    ExitIfTrue,
    // 32: exit the loop if false
    ExitIfFalse,
    // 41-48: port 1-8
    PortHigh(u8),
    // 51-58: port 1-8
    PortLow(u8),
}

// 'An entry is one of these and nothing else.' Each case has its parameters in the order in which they are keyed.
#[derive(Clone, Copy)]
pub enum Instruction {
    // 95
    End,
    // 94
    Else,
    // 1
    MeasureSingle {
        reps: u8,
        range: u8,
        channel: SingleEnded,
        location: Location,
        scale: Scale,
    },
    // 2
    MeasureDifferential {
        reps: u8,
        range: u8,
        channel: Differential,
        location: Location,
        scale: Scale,
    },
    // 30: Z = F
    SetFixed(f32, Location),
    // 31: Z = X
    Copy(Location, Location),
    // 32: Z = Z + 1
    Increment(Location),
    // 33: Z = X + Y
    Add(Location, Location, Location),
    // 34: Z = X + F
    AddFixed(Location, f32, Location),
    // 35: Z = X - Y
    Subtract(Location, Location, Location),
    // 36: Z = X * Y
    Multiply(Location, Location, Location),
    // 37: Z = X * F
    MultiplyFixed(Location, f32, Location),
    // 38: Z = X / Y
    Divide(Location, Location, Location),
    // 70
    Sample(u8, Location),
    // 71
    Average(u8, Location),
    // 72
    Total(u8, Location),
    // 73
    Maximum(u8, Location),
    // 74
    Minimum(u8, Location),
    // 77
    StoreTime(TimeCode),
    // 85
    Subroutine(u8),
    // 86
    Do(Command),
    // 87
    Loop {
        delay: u16,
        count: u16,
    },
    // 88
    IfLocations(Location, Relation, Location, Command),
    // 89
    IfFixed(Location, Relation, f32, Command),
    // 91
    IfFlag {
        flag: u8,
        high: bool,
        command: Command,
    },
    // 92
    IfTime {
        into: u16,
        interval: u16,
        command: Command,
    },
}

// Tables 1 and 2, and Table 3, which holds the subroutines.
#[derive(Clone, Copy)]
pub enum Table {
    One,
    Two,
    Three,
}

// The tables that run by the clock.
#[derive(Clone, Copy)]
pub enum Timed {
    One,
    Two,
}

#[derive(Clone, Copy)]
pub struct Slot {
    pub instruction: Instruction,
}

// The whole record: I, M, both V, how many entries each table has, and 99 slots for each table.
#[derive(Clone, Copy)]
pub struct Program {
    pub locations: u16,
    pub sums: u16,
    pub intervals: [u32; 2],
    pub lengths: [u8; 3],
    pub slots: [Slot; 297],
}

// Where an entry can go on: the control-flow kind of an instruction.
#[derive(Clone, Copy)]
pub enum Flow {
    // the next entry, whatever a test says
    Next,
    Else,
    End,
    Then,
    Stop,
    Loop(u16),
    Subroutine(u8),
    Call(u8),
    // exit the loop, if the test is this
    Exit(bool),
}

// What a walk over a program finds: nothing, or a fault's number, table and entry.
#[derive(Clone, Copy)]
pub enum Finding {
    Clean,
    Fault(u8, u8, u8),
}

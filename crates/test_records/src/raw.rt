// Entries of a record from bare numbers, within their ranges or not: behind table and entry stand the instruction's number
// and its fields. A location is its number, plus 65,536 where it is indexed; a fixed value a number of `fixed`;
// a command its kind and its number.
ghost use Rattle.std.specs.Prelude.{◌≤◌};

use base_program::{
    Command, Differential, Instruction, Location, Relation, Scale, SingleEnded, TimeCode,
};

fn byte(line: &[u8], k: usize) -> u8 {
    (base_lines::value(line, k) % 256) as u8
}

fn half(line: &[u8], k: usize) -> u16 {
    (base_lines::value(line, k) % 65536) as u16
}

// 0 and 1; both infinities and no number; the largest and its negative; the least above 0; -0.
fn fixed(line: &[u8], k: usize) -> f32 {
    match byte(line, k) {
        0 => 0.0,
        1 => 1.0,
        2 => f32::INFINITY,
        3 => f32::NEG_INFINITY,
        4 => f32::NAN,
        5 => f32::MAX,
        6 => f32::MIN,
        7 => 1.0e-45,
        _ => -0.0,
    }
}

fn location(line: &[u8], k: usize) -> Location {
    Location {
        number: half(line, k),
        indexed: 65535 < base_lines::value(line, k),
    }
}

fn relation(line: &[u8], k: usize) -> Relation {
    match byte(line, k) {
        1 => Relation::Equal,
        2 => Relation::NotEqual,
        3 => Relation::AtLeast,
        _ => Relation::Below,
    }
}

fn command(line: &[u8], k: usize) -> Command
    requires { k ≤ 20 }
{
    let n = byte(line, k + 1);
    match byte(line, k) {
        0 => Command::Stop,
        1 => Command::Call(n),
        2 => Command::Raise(n),
        3 => Command::Lower(n),
        4 => Command::Then,
        5 => Command::ExitIfTrue,
        6 => Command::ExitIfFalse,
        7 => Command::PortHigh(n),
        _ => Command::PortLow(n),
    }
}

fn time_code(line: &[u8]) -> TimeCode {
    match byte(line, 4) {
        10 => TimeCode::HoursMinutes,
        100 => TimeCode::Day,
        _ => TimeCode::DayHoursMinutes,
    }
}

fn measurement(line: &[u8]) -> Instruction {
    let reps = byte(line, 4);
    let range = byte(line, 5);
    let n = byte(line, 6);
    let location = location(line, 7);
    let scale = Scale {
        multiplier: fixed(line, 8),
        offset: fixed(line, 9),
    };
    if byte(line, 3) == 1 {
        return Instruction::MeasureSingle {
            reps,
            range,
            channel: SingleEnded(n),
            location,
            scale,
        };
    }
    Instruction::MeasureDifferential {
        reps,
        range,
        channel: Differential(n),
        location,
        scale,
    }
}

fn output(line: &[u8]) -> Instruction {
    let reps = byte(line, 4);
    let z = location(line, 5);
    match byte(line, 3) {
        70 => Instruction::Sample(reps, z),
        71 => Instruction::Average(reps, z),
        72 => Instruction::Total(reps, z),
        73 => Instruction::Maximum(reps, z),
        _ => Instruction::Minimum(reps, z),
    }
}

fn processing(line: &[u8]) -> Instruction {
    let x = location(line, 4);
    let y = location(line, 5);
    match byte(line, 3) {
        30 => Instruction::SetFixed(fixed(line, 4), y),
        31 => Instruction::Copy(x, y),
        32 => Instruction::Increment(x),
        33 => Instruction::Add(x, y, location(line, 6)),
        34 => Instruction::AddFixed(x, fixed(line, 5), location(line, 6)),
        35 => Instruction::Subtract(x, y, location(line, 6)),
        36 => Instruction::Multiply(x, y, location(line, 6)),
        37 => Instruction::MultiplyFixed(x, fixed(line, 5), location(line, 6)),
        _ => Instruction::Divide(x, y, location(line, 6)),
    }
}

fn test(line: &[u8]) -> Instruction {
    match byte(line, 3) {
        88 => Instruction::IfLocations(
            location(line, 4),
            relation(line, 5),
            location(line, 6),
            command(line, 7),
        ),
        89 => Instruction::IfFixed(
            location(line, 4),
            relation(line, 5),
            fixed(line, 6),
            command(line, 7),
        ),
        91 => Instruction::IfFlag {
            flag: byte(line, 4),
            high: byte(line, 5) == 1,
            command: command(line, 6),
        },
        _ => Instruction::IfTime {
            into: half(line, 4),
            interval: half(line, 5),
            command: command(line, 6),
        },
    }
}

pub fn instruction(line: &[u8]) -> Instruction {
    match byte(line, 3) {
        1 | 2 => measurement(line),
        30..=38 => processing(line),
        70..=74 => output(line),
        77 => Instruction::StoreTime(time_code(line)),
        85 => Instruction::Subroutine(byte(line, 4)),
        86 => Instruction::Do(command(line, 4)),
        87 => Instruction::Loop {
            delay: half(line, 4),
            count: half(line, 5),
        },
        88..=92 => test(line),
        94 => Instruction::Else,
        _ => Instruction::End,
    }
}

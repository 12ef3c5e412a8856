// The fields of a slot, V and the lengths of the tables, read where they lie in the lent buffers.
#![tactic(auto)]

ghost use Rattle.std.specs.Prelude.{◌≡◌, [], ◌∷◌, ◌+◌, ◌*◌, ◌<◌, length, get_or, SomeIff, IsTrue};
ghost use Rattle.base_float.specs.Finite.{zero_float};
ghost use Rattle.record_layout.specs.Layout.{byte_of, length_of, interval_of, location_laid, scale_of, is_command, command_laid};

use base_program::{Command, Location, Scale};

// How many numbers and values a record has in lent buffers.
pub const NUMBERS: usize = 2385;

pub const VALUES: usize = 594;

// V, of the two numbers from place k on.
pub fn interval_at(numbers: &[u16], k: usize) -> u32
    requires { (length numbers.now ≡ 2385) × (k < 9) }
    ensures { result ≡ interval_of numbers.now k }
{
    u32::from(numbers[k]) + 65536 * u32::from(numbers[k + 1])
}

// How many entries the table of a row has.
pub fn length_at(numbers: &[u16], row: usize) -> u8
    requires { (length numbers.now ≡ 2385) × (row < 3) }
    ensures { result ≡ length_of numbers.now row }
{
    numbers[6 + row].min(255) as u8
}

// V of Tables 1 and 2.
pub fn intervals_of(numbers: &[u16]) -> [u32; 2]
    requires { length numbers.now ≡ 2385 }
    ensures { result ≡ interval_of numbers.now 2 ∷ interval_of numbers.now 4 ∷ [] }
{
    [interval_at(numbers, 2), interval_at(numbers, 4)]
}

// How many entries each table has.
pub fn lengths_of(numbers: &[u16]) -> [u8; 3]
    requires { length numbers.now ≡ 2385 }
    ensures { result ≡ length_of numbers.now 0 ∷ length_of numbers.now 1 ∷ length_of numbers.now 2 ∷ [] }
{
    [
        length_at(numbers, 0),
        length_at(numbers, 1),
        length_at(numbers, 2),
    ]
}

// The j-th number behind the instruction's own, in slot s.
pub fn field_at(numbers: &[u16], s: usize, j: usize) -> u16
    requires { (length numbers.now ≡ 2385) × (s < 297) × (j < 8) }
    ensures { result ≡ get_or numbers.now (9 + 8 * s + j) 0 }
{
    numbers[9 + 8 * s + j]
}

// Reps, range, channel, flag or the number of a subroutine.
pub fn byte_at(numbers: &[u16], s: usize, j: usize) -> u8
    requires { (length numbers.now ≡ 2385) × (s < 297) × (j < 7) }
    ensures { result ≡ byte_of (get_or numbers.now (9 + 8 * s + j) 0) }
{
    field_at(numbers, s, j).min(255) as u8
}

// The location of the j-th number and the next.
pub fn location_at(numbers: &[u16], s: usize, j: usize) -> Location
    requires { (length numbers.now ≡ 2385) × (s < 297) × (j < 7) }
    ensures { result ≡ location_laid (get_or numbers.now (9 + 8 * s + j) 0) (get_or numbers.now (9 + 8 * s + (j + 1)) 0) }
{
    let number = field_at(numbers, s, j);
    let indexed = field_at(numbers, s, j + 1);
    Location {
        number,
        indexed: indexed != 0,
    }
}

// The first value of slot s.
pub fn value_at(values: &[f32], s: usize) -> f32
    requires { (length values.now ≡ 594) × (s < 297) }
    ensures { result ≡ get_or values.now (2 * s) zero_float }
{
    values[2 * s]
}

// Multiplier and offset of slot s.
pub fn scale_at(values: &[f32], s: usize) -> Scale
    requires { (length values.now ≡ 594) × (s < 297) }
    ensures { result ≡ scale_of (get_or values.now (2 * s) zero_float) (get_or values.now (2 * s + 1) zero_float) }
{
    Scale {
        multiplier: values[2 * s],
        offset: values[2 * s + 1],
    }
}

// The command with number n; a kind over 8 is taken for 8.
#[tactic(auto, unfolding(record_layout::specs::Layout::command_of_kind))]
pub fn command_of(n: u16) -> Command
    ensures { result ≡ command_laid n }
{
    let argument = (n % 256) as u8;
    match n / 256 {
        0 => Command::Stop,
        1 => Command::Call(argument),
        2 => Command::Raise(argument),
        3 => Command::Lower(argument),
        4 => Command::Then,
        5 => Command::ExitIfTrue,
        6 => Command::ExitIfFalse,
        7 => Command::PortHigh(argument),
        _ => Command::PortLow(argument),
    }
}

// The command with number n, if its kind is one of the nine.
pub fn known_command(n: u16) -> Option<Command>
    ensures { SomeIff result (IsTrue (is_command n)) (command_laid n) }
{
    if n / 256 < 9 {
        Some(command_of(n))
    } else {
        None
    }
}

// Numbers that a scan goes by.
#![tactic(auto)]

ghost use Rattle.std.specs.Prelude.{◌≡◌, ◌+◌, ◌*◌, ◌/◌, ◌%◌, ◌≤◌, ◌<◌};
ghost use Rattle.base_program.specs.Entries.{row};
ghost use Rattle.spec_machine.specs.Machine.{table_of};
ghost use Rattle.spec_calls.specs.Scanned.{place_of};

use base_program::{MINUTE, Timed};

// Table 1 is row 0, Table 2 row 1, in a record and in a state.
pub fn row_of(t: Timed) -> usize
    ensures row { result ≡ row (table_of t) }
    ensures place { result ≡ place_of t }
    ensures small { result < 2 }
{
    match t {
        Timed::One => 0,
        Timed::Two => 1,
    }
}

// 'the minute (T div 4,800)'
pub fn minute_of(time: u32) -> u16
    requires { time ≤ 6911999 }
    ensures { (result ≡ time / 4800) × (result < 1440) }
{
    (time / MINUTE) as u16
}

// 'hours × 100 + minutes'
pub fn clock_of(minute: u16) -> u16
    requires { minute < 1440 }
    ensures { result ≡ minute / 60 * 100 + minute % 60 }
{
    minute / 60 * 100 + minute % 60
}

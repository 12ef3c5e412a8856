// Whether a table's last scan was in another minute. Nothing here writes.
#![tactic(auto)]

ghost use Rattle.std.specs.Prelude.{◌≡◌};
ghost use Rattle.spec_machine.specs.Values.{another};
ghost use Rattle.spec_calls.specs.Stores.{last_in};

use base_program::Timed;
use scan_tick::row_of;
use spec_calls::State;

// 'this table's previous scan was in another day or minute, or never was'
pub fn another_minute(s: State, t: Timed, day: u16, minute: u16) -> bool
    ensures { result ≡ another (last_in s t) day minute }
{
    let k = row_of(t);
    let last = s.days[k];
    if last == 0 {
        return true;
    }
    last != day || s.minutes[k] != minute
}

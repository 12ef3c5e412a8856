// The numbers of a state in arrays of their own as a table's run begins, and the state put together again behind it.
#![tactic(auto)]

ghost use Rattle.std.specs.Prelude.{◌≡◌};
ghost use Rattle.spec_calls.specs.Scanned.{place_of};
ghost use Rattle.scan_state.specs.Parts.{lowered, numbers_of, noting};

use base_program::Timed;
use spec_calls::State;

// 'Flags 0 and 9 are lowered as a table starts.'
pub fn flags_at_start(state: State) -> [bool; 10]
    ensures { result ≡ lowered state.flags }
{
    let mut low = state.flags;
    low[0] = false;
    low[9] = false;
    low
}

// The ring's position and filled count, the array id last raised; no start word waits.
pub fn numbers_at_start(state: State) -> [u16; 4]
    ensures { result ≡ numbers_of state }
{
    [state.position, state.filled, state.array, 0]
}

// The state behind a scan: this scan is the table's last.
pub fn put_together(
    state: State,
    table: Timed,
    day: u16,
    minute: u16,
    flags: [bool; 10],
    ports: [bool; 8],
    numbers: [u16; 4],
) -> State
    ensures { result ≡ noting (place_of table) day minute flags ports numbers state }
{
    let at = scan_tick::row_of(table);
    let mut days = state.days;
    days[at] = day;
    let mut minutes = state.minutes;
    minutes[at] = minute;
    State {
        flags,
        ports,
        position: numbers[0],
        filled: numbers[1],
        array: numbers[2],
        days,
        minutes,
    }
}

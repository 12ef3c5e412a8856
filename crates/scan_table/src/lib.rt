// The scan of a table of a passed record: nothing where it is not due, else its run.
#![tactic(auto)]

ghost use Rattle.std.specs.Prelude.{◌≡◌, length};
ghost use Rattle.spec_machine.specs.Run.{due};
ghost use Rattle.spec_calls.specs.Stores.{stores};
ghost use Rattle.spec_calls.specs.Scanned.{Leaves, StoresScanned, scan_in};
ghost use Rattle.scan_turns.specs.Run.{Loaded};
ghost use Rattle.record_layout.specs.Layout.{record_of};
ghost use Rattle.record_fields.specs.Entries.{Sized};
ghost use Rattle.scan_table.specs.Scan.{ScanReady, DueTold};

use base_program::Timed;
use scan_tick::{minute_of, row_of};
use spec_calls::State;

// The run of a due table. In it the flags, the ports and the numbers of the state lie in arrays of their own.
fn run_table(
    numbers: &[u16],
    values: &[f32],
    codes: &[u32],
    taken: &[u8],
    starts: &[u8],
    table: Timed,
    day: u16,
    time: u32,
    state: State,
    readings: &[f32],
    locations: &mut [f32],
    sums: &mut [f32],
    counts: &mut [u32],
    ring: &mut [u16],
) -> State
    requires { (ScanReady (record_of numbers.now values.now) (stores state locations.old sums.old counts.old ring.old) day time readings.now × Loaded (record_of numbers.now values.now) codes.now taken.now starts.now) × Sized numbers.now values.now }
    ensures { Leaves (record_of numbers.now values.now) (scan_in table day time readings.now (stores state locations.old sums.old counts.old ring.old)) (stores state locations.old sums.old counts.old ring.old) (stores result locations.new sums.new counts.new ring.new) }
{
    let minute = minute_of(time);
    let another = scan_last::another_minute(state, table, day, minute);
    let mut flags = scan_state::flags_at_start(state);
    let mut ports = state.ports;
    let mut store = scan_state::numbers_at_start(state);
    scan_run::run_lent(
        numbers, values, codes, taken, starts, table, day, time, another, readings, locations,
        sums, counts, &mut flags, &mut ports, ring, &mut store,
    );
    scan_state::put_together(state, table, day, minute, flags, ports, store)
}

// 'A table runs if V is not 0 and divides T.'
pub fn is_due(numbers: &[u16], table: Timed, time: u32) -> bool
    requires { length numbers.now ≡ 2385 }
    ensures { DueTold numbers.now table time result }
{
    let intervals = record_fields::intervals_of(numbers);
    scan_refusals::runs_at(intervals[row_of(table)], time)
}

// Nothing where the table is not due, else its run.
pub fn scan_table(
    numbers: &[u16],
    values: &[f32],
    codes: &[u32],
    taken: &[u8],
    starts: &[u8],
    table: Timed,
    day: u16,
    time: u32,
    state: State,
    readings: &[f32],
    locations: &mut [f32],
    sums: &mut [f32],
    counts: &mut [u32],
    ring: &mut [u16],
) -> State
    requires { (ScanReady (record_of numbers.now values.now) (stores state locations.old sums.old counts.old ring.old) day time readings.now × Loaded (record_of numbers.now values.now) codes.now taken.now starts.now) × Sized numbers.now values.now }
    ensures { StoresScanned (due (record_of numbers.now values.now) table time) (record_of numbers.now values.now) table day time readings.now (stores state locations.old sums.old counts.old ring.old) (stores result locations.new sums.new counts.new ring.new) }
{
    if !is_due(numbers, table, time) {
        return state;
    }
    run_table(
        numbers, values, codes, taken, starts, table, day, time, state, readings, locations, sums,
        counts, ring,
    )
}

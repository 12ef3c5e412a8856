// The library's scan of a table at a tick.
#![tactic(auto)]

ghost use Rattle.firmware_scan.specs.Scan.{lent, ScanCalled};

use firmware_buffers::{is_record, tick_day, timed_of};

pub fn scan(
    numbers: &[u16],
    values: &[f32],
    table: u8,
    day: u32,
    time: u32,
    state: &mut [u16],
    readings: &[f32],
    locations: &mut [f32],
    sums: &mut [f32],
    counts: &mut [u32],
    ring: &mut [u16],
) -> u8
    ensures { ScanCalled numbers.now values.now table day time readings.now (lent state.old locations.old sums.old counts.old ring.old) result (lent state.new locations.new sums.new counts.new ring.new) }
{
    if !is_record(numbers.len(), values.len()) {
        return 31;
    }
    if state.len() != 25 {
        return 31;
    }
    let s = firmware_state::read_state(&state[..]);
    let t = timed_of(table);
    let d = tick_day(table, day);
    let answer = logger_scan::scan_lent(
        numbers, values, t, d, time, s, readings, locations, sums, counts, ring,
    );
    let number = answer.refusal;
    let after = answer.state;
    if number != 0 {
        return number;
    }
    if scan_table::is_due(numbers, t, time) {
        firmware_store::write_state(after, state);
    }
    number
}

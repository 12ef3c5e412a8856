// The scan of a table at a tick.
ghost use Rattle.firmware_scan.specs.Scan.{ScanCalled, lent};

#[unsafe(no_mangle)]
pub extern "C" fn yukeira_scan(
    numbers: &[u16],
    values: &[f32],
    table: u8,
    day: u32,
    time: u32,
    state: &mut [u16],
    readings: &[f32],
    locations: &mut [f32],
    sums: &mut [f32],
    counts: &mut [u32],
    ring: &mut [u16],
) -> u8
    ensures { ScanCalled numbers.now values.now table day time readings.now (lent state.old locations.old sums.old counts.old ring.old) result (lent state.new locations.new sums.new counts.new ring.new) }
{
    firmware_scan::scan(
        numbers, values, table, day, time, state, readings, locations, sums, counts, ring,
    )
}

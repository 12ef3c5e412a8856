// The run of a scan on lent buffers: where it jumps to is found once, then one turn an entry.
#![tactic(auto)]

ghost use Rattle.spec_machine.specs.Values.{Scan};
ghost use Rattle.spec_buffers.specs.Held.{held_of};
ghost use Rattle.record_layout.specs.Layout.{record_of};
ghost use Rattle.record_fields.specs.Entries.{Sized};
ghost use Rattle.scan_turns.specs.Run.{Runnable, Loaded, TickOf, RunLeaves};

use base_program::Timed;
use record_codes::entries_in_use;
use record_fields::lengths_of;
use scan_tick::{clock_of, minute_of, row_of};
use scan_turns::run_slots;

// One scan of a passed record, from entry 1 to its end. The check has found its entries' kinds, the sums that they take and where subroutines
// begin.
pub fn run_lent(
    numbers: &[u16],
    values: &[f32],
    codes: &[u32],
    taken: &[u8],
    subs: &[u8],
    table: Timed,
    day: u16,
    time: u32,
    another: bool,
    readings: &[f32],
    locations: &mut [f32],
    sums: &mut [f32],
    counts: &mut [u32],
    flags: &mut [bool],
    ports: &mut [bool],
    ring: &mut [u16],
    store: &mut [u16],
)
    requires { (Runnable (record_of numbers.now values.now) day time readings.now (held_of locations.old sums.old counts.old flags.old ports.old ring.old store.old) store.old × Loaded (record_of numbers.now values.now) codes.now taken.now subs.now) × Sized numbers.now values.now }
    ensures { (x : Scan) → TickOf x table day time another readings.now → RunLeaves (record_of numbers.now values.now) x (held_of locations.old sums.old counts.old flags.old ports.old ring.old store.old) (held_of locations.new sums.new counts.new flags.new ports.new ring.new store.new) }
{
    let mut ends = [0u8; 384];
    let mut elses = [0u8; 384];
    let mut firsts = [0u32; 297];
    let mut marks = [0u64; 97];
    let lengths = lengths_of(numbers);
    scan_targets::fill_ways(codes, lengths, &mut ends, &mut elses);
    scan_firsts::fill_firsts(taken, lengths, &mut firsts);
    let row = row_of(table);
    let start = 128 * row;
    let home = start + entries_in_use(lengths[row]);
    let minute = minute_of(time);
    let clock = clock_of(minute);
    run_slots(
        numbers, values, start, home, day, clock, minute, another, &ends, &elses, subs, &firsts,
        readings, locations, sums, counts, flags, ports, ring, store, &mut marks,
    );
}

// The loop of a scan. Each turn reads its entry's slot in the lent buffers, and only numbers and references cross the call of an entry.
#![tactic(auto)]

ghost use Rattle.std.specs.Prelude.{◌≡◌, ◌*◌};
ghost use Rattle.base_program.specs.declared.Timed.{Timed};
ghost use Rattle.base_program.specs.Entries.{row};
ghost use Rattle.spec_machine.specs.Machine.{table_of};
ghost use Rattle.spec_machine.specs.Values.{Scan};
ghost use Rattle.spec_buffers.specs.Held.{held_of};
ghost use Rattle.record_layout.specs.Layout.{record_of};
ghost use Rattle.record_fields.specs.Entries.{Sized};
ghost use Rattle.scan_turns.specs.Run.{RunLeaves};
ghost use Rattle.scan_turns.specs.Loop.{Asks, Starts, Ticks};

// One turn an entry, from place `start` until `home`, the place behind the last entry of the table scanned. A passed record comes behind the last
// entry of no other table, and to `home` with nothing open alone.
pub fn run_slots(
    numbers: &[u16],
    values: &[f32],
    start: usize,
    home: usize,
    day: u16,
    clock: u16,
    minute: u16,
    another: bool,
    ends: &[u8],
    elses: &[u8],
    subs: &[u8],
    firsts: &[u32],
    readings: &[f32],
    locations: &mut [f32],
    sums: &mut [f32],
    counts: &mut [u32],
    flags: &mut [bool],
    ports: &mut [bool],
    ring: &mut [u16],
    store: &mut [u16],
    marks: &mut [u64],
)
    requires { (Asks (record_of numbers.now values.now) start home day clock minute another ends.now elses.now subs.now firsts.now readings.now store.old × Starts (record_of numbers.now values.now) (held_of locations.old sums.old counts.old flags.old ports.old ring.old store.old) marks.old) × Sized numbers.now values.now }
    ensures { (t : Timed) (x : Scan) → start ≡ 128 * row (table_of t) → Ticks x t day clock minute another readings.now → RunLeaves (record_of numbers.now values.now) x (held_of locations.old sums.old counts.old flags.old ports.old ring.old store.old) (held_of locations.new sums.new counts.new flags.new ports.new ring.new store.new) }
{
    let mut top: usize = 0;
    let mut pc = start;
    while pc != home {
        let row = pc / 128;
        let slot = pc - 29 * row;
        pc = scan_entry::carry_at(
            numbers,
            values,
            slot,
            (slot + row + 101) as u16,
            day,
            clock,
            minute,
            another,
            home,
            pc + 1,
            ends,
            elses,
            subs,
            firsts,
            readings,
            locations,
            sums,
            counts,
            flags,
            ports,
            ring,
            store,
            marks,
            &mut top,
        );
    }
}

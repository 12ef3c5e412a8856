// The calls on a record by value: it is written into buffers of the call, and the calls on lent buffers do the rest.
ghost use Rattle.spec_calls.specs.Stores.{stores};
ghost use Rattle.spec_calls.specs.Answers.{ScanAnswers, LocationAnswered, FlagAnswered};

use base_program::{Program, Timed};
use record_writer::write_record;
use spec_calls::{Answer, State};

// A refusal and the state as it is, or 0 and the state behind the scan.
pub fn scan(
    p: Program,
    table: Timed,
    day: u32,
    time: u32,
    state: State,
    readings: &[f32],
    locations: &mut [f32],
    sums: &mut [f32],
    counts: &mut [u32],
    ring: &mut [u16],
) -> Answer
    ensures { ScanAnswers p table day time readings.now (stores state locations.old sums.old counts.old ring.old) result.refusal (stores result.state locations.new sums.new counts.new ring.new) }
{
    let mut numbers = [0u16; 2385];
    let mut values = [0.0f32; 594];
    write_record(p, &mut numbers, &mut values);
    logger_scan::scan_lent(
        &numbers, &values, table, day, time, state, readings, locations, sums, counts, ring,
    )
}

// Location n is set to v, or the refusal's number is answered.
pub fn key_location(p: Program, n: u32, v: f32, locations: &mut [f32]) -> u8
    ensures { LocationAnswered p n v locations.old result locations.new }
{
    let mut numbers = [0u16; 2385];
    let mut values = [0.0f32; 594];
    write_record(p, &mut numbers, &mut values);
    logger_keys::key_location_lent(&numbers, &values, n, v, locations)
}

// Flag f is turned over, or the refusal's number is answered and the state stays.
pub fn key_flag(p: Program, f: u8, state: State) -> Answer
    ensures { FlagAnswered p f state result.refusal result.state }
{
    let mut numbers = [0u16; 2385];
    let mut values = [0.0f32; 594];
    write_record(p, &mut numbers, &mut values);
    logger_keys::key_flag_lent(&numbers, &values, f, state)
}

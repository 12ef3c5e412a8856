// The scan of a table at a tick, of a record that lies in lent buffers.
#![tactic(auto)]

ghost use Rattle.spec_calls.specs.Stores.{stores};
ghost use Rattle.spec_calls.specs.Answers.{ScanAnswers};
ghost use Rattle.record_layout.specs.Layout.{record_of};
ghost use Rattle.record_fields.specs.Entries.{Sized};

use base_program::Timed;
use spec_calls::{Answer, State};
use spec_check::Verdict;

// A refusal and the state as it is, or 0 and the state behind the scan.
pub fn scan_lent(
    numbers: &[u16],
    values: &[f32],
    table: Timed,
    day: u32,
    time: u32,
    state: State,
    readings: &[f32],
    locations: &mut [f32],
    sums: &mut [f32],
    counts: &mut [u32],
    ring: &mut [u16],
) -> Answer
    requires { Sized numbers.now values.now }
    ensures { ScanAnswers (record_of numbers.now values.now) table day time readings.now (stores state locations.old sums.old counts.old ring.old) result.refusal (stores result.state locations.new sums.new counts.new ring.new) }
{
    let mut codes = [0u32; 297];
    let mut taken = [0u8; 297];
    let mut starts = [0u8; 256];
    let verdict = check_record::judge_lent(numbers, values, &mut codes, &mut taken, &mut starts);
    let Verdict::Pass(_, _) = verdict else {
        return spec_calls::answer_with(30, state);
    };
    let n = scan_refusals::lent_sizes(locations.len(), sums.len(), readings.len(), ring.len());
    let judged = scan_refusals::lent_refusal(numbers[0], numbers[1], n, state, counts, day, time);
    if let Err(number) = judged {
        return spec_calls::answer_with(number, state);
    }
    let after = scan_table::scan_table(
        numbers, values, &codes, &taken, &starts, table, day as u16, time, state, readings,
        locations, sums, counts, ring,
    );
    spec_calls::answer_with(0, after)
}

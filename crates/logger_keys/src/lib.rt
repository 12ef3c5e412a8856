// Keyings over a record that lies in lent buffers.
#![tactic(auto)]

ghost use Rattle.std.specs.Prelude.{◌≡◌, length};
ghost use Rattle.spec_calls.specs.Refusals.{key_refusal, flag_refusal};
ghost use Rattle.spec_calls.specs.Answers.{keyed, flagged};
ghost use Rattle.record_layout.specs.Layout.{record_of};
ghost use Rattle.record_fields.specs.Entries.{Sized};

use spec_calls::{Answer, State};

pub fn key_location_lent(
    numbers: &[u16],
    values: &[f32],
    n: u32,
    v: f32,
    locations: &mut [f32],
) -> u8
    requires { Sized numbers.now values.now }
    ensures { (result ≡ key_refusal (record_of numbers.now values.now) (length locations.old) n v) × (locations.new ≡ keyed result n v locations.old) }
{
    let verdict = check_record::check_lent(numbers, values);
    match logger_keyed::key_judged(verdict, numbers[0], n, v, locations) {
        Ok(()) => 0,
        Err(refusal) => refusal,
    }
}

pub fn key_flag_lent(numbers: &[u16], values: &[f32], f: u8, state: State) -> Answer
    requires { Sized numbers.now values.now }
    ensures { (result.refusal ≡ flag_refusal (record_of numbers.now values.now) f) × (result.state ≡ flagged result.refusal f state) }
{
    let verdict = check_record::check_lent(numbers, values);
    logger_keyed::flag_judged(verdict, f, state)
}

// The library's fresh state, and its keyed locations and flags.
#![tactic(auto)]

ghost use Rattle.firmware_keys.specs.Keys.{Freshened, LocationKeyed, FlagKeyed};

use firmware_buffers::is_record;

pub fn fresh(state: &mut [u16]) -> u8
    ensures { Freshened state.old result state.new }
{
    if state.len() != 25 {
        return 31;
    }
    let s = spec_calls::fresh();
    firmware_store::write_state(s, state);
    0
}

pub fn key_location(numbers: &[u16], values: &[f32], n: u32, v: f32, locations: &mut [f32]) -> u8
    ensures { LocationKeyed numbers.now values.now n v locations.old result locations.new }
{
    if !is_record(numbers.len(), values.len()) {
        return 31;
    }
    logger_keys::key_location_lent(numbers, values, n, v, locations)
}

pub fn key_flag(numbers: &[u16], values: &[f32], f: u8, state: &mut [u16]) -> u8
    ensures { FlagKeyed numbers.now values.now f state.old result state.new }
{
    if !is_record(numbers.len(), values.len()) {
        return 31;
    }
    if state.len() != 25 {
        return 31;
    }
    let s = firmware_state::read_state(&state[..]);
    let answer = logger_keys::key_flag_lent(numbers, values, f, s);
    let number = answer.refusal;
    let after = answer.state;
    if number == 0 {
        firmware_store::write_state(after, state);
    }
    number
}

// The fresh state, and keyed locations and flags.
ghost use Rattle.firmware_keys.specs.Keys.{Freshened, LocationKeyed, FlagKeyed};

#[unsafe(no_mangle)]
pub extern "C" fn yukeira_fresh(state: &mut [u16]) -> u8
    ensures { Freshened state.old result state.new }
{
    firmware_keys::fresh(state)
}

#[unsafe(no_mangle)]
pub extern "C" fn yukeira_key_location(
    numbers: &[u16],
    values: &[f32],
    n: u32,
    v: f32,
    locations: &mut [f32],
) -> u8
    ensures { LocationKeyed numbers.now values.now n v locations.old result locations.new }
{
    firmware_keys::key_location(numbers, values, n, v, locations)
}

#[unsafe(no_mangle)]
pub extern "C" fn yukeira_key_flag(numbers: &[u16], values: &[f32], f: u8, state: &mut [u16]) -> u8
    ensures { FlagKeyed numbers.now values.now f state.old result state.new }
{
    firmware_keys::key_flag(numbers, values, f, state)
}

// The listing of Final Storage.
ghost use Rattle.firmware_list.specs.Items.{ListTold, NextTold};

#[unsafe(no_mangle)]
pub extern "C" fn yukeira_list(
    state: &[u16],
    ring: &[u16],
    k: usize,
    j: usize,
    number: &mut u16,
    places: &mut u8,
    negative: &mut u8,
) -> u8
    ensures { ListTold state.now ring.now k j number.old places.old negative.old result number.new places.new negative.new }
{
    firmware_listed::list(state, ring, k, j, number, places, negative)
}

#[unsafe(no_mangle)]
pub extern "C" fn yukeira_next(
    state: &[u16],
    ring: &[u16],
    cursor: &mut [u16],
    values: &mut [u16],
    id: &mut u16,
    count: &mut usize,
) -> u8
    ensures { NextTold state.now ring.now cursor.old values.old id.old count.old result cursor.new values.new id.new count.new }
{
    firmware_listed::next(state, ring, cursor, values, id, count)
}

// The library's listing of Final Storage.
#![tactic(auto)]

ghost use Rattle.firmware_list.specs.Items.{ListTold, NextTold};

use firmware_list::{cursor_in, put_array, put_cursor, put_item, ring_in};

pub fn list(
    state: &[u16],
    ring: &[u16],
    k: usize,
    j: usize,
    number: &mut u16,
    places: &mut u8,
    negative: &mut u8,
) -> u8
    ensures { ListTold state.now ring.now k j number.old places.old negative.old result number.new places.new negative.new }
{
    if state.len() != 25 {
        return 31;
    }
    let l = storage_item::list(ring, ring_in(state), k, j);
    put_item(l, number, places, negative)
}

pub fn next(
    state: &[u16],
    ring: &[u16],
    cursor: &mut [u16],
    values: &mut [u16],
    id: &mut u16,
    count: &mut usize,
) -> u8
    ensures { NextTold state.now ring.now cursor.old values.old id.old count.old result cursor.new values.new id.new count.new }
{
    if state.len() != 25 {
        return 31;
    }
    if cursor.len() != 3 {
        return 31;
    }
    let mut c = cursor_in(&cursor[..]);
    let a = storage_cursor::next(ring, ring_in(state), &mut c, values);
    put_cursor(c, cursor);
    put_array(a, id, count)
}

// The parts of the library's listing of Final Storage: what it reads of the state and the cursor, and its answers in numbers.
#![tactic(auto)]

ghost use Rattle.std.specs.Prelude.{◌≡◌, true, length};
ghost use Rattle.spec_calls.specs.Stores.{ring_state};
ghost use Rattle.firmware_state.specs.State.{state_of};
ghost use Rattle.firmware_list.specs.Items.{cursor_of, numbers_of_cursor, ItemTold, ArrayPut};

use storage_listing::{Cursor, Item, NextArray, NextError};
use storage_ring::RingState;

// The ring's position and filled count. Nothing else of the numbers that C lends is read.
pub fn ring_in(state: &[u16]) -> RingState
    requires { length state.now ≡ 25 }
    ensures { result ≡ ring_state (state_of state.now) }
{
    RingState {
        position: state[18],
        filled: state[19],
    }
}

pub fn cursor_in(cursor: &[u16]) -> Cursor
    requires { length cursor.now ≡ 3 }
    ensures { result ≡ cursor_of cursor.now }
{
    Cursor {
        from: cursor[0],
        position: cursor[1],
        filled: cursor[2],
    }
}

pub fn put_cursor(c: Cursor, cursor: &mut [u16])
    requires { length cursor.old ≡ 3 }
    ensures { cursor.new ≡ numbers_of_cursor c }
{
    cursor[0] = c.from;
    cursor[1] = c.position;
    cursor[2] = c.filled;
}

// A listed item in four numbers.
#[tactic(auto, unfolding(crate::specs::Items::kind_of, crate::specs::Items::number_left, crate::specs::Items::places_left, crate::specs::Items::negative_left))]
pub fn put_item(
    l: Result<Option<Item>, u8>,
    number: &mut u16,
    places: &mut u8,
    negative: &mut u8,
) -> u8
    ensures { ItemTold true l number.old places.old negative.old result number.new places.new negative.new }
{
    match l {
        Err(n) => n,
        Ok(None) => 0,
        Ok(Some(Item::Id(id))) => {
            *number = id;
            *places = 0;
            *negative = 0;
            1
        }
        Ok(Some(Item::Value(d))) => {
            *number = d.digits;
            *places = d.places;
            *negative = d.negative as u8;
            2
        }
    }
}

// An answered array in three numbers.
#[tactic(auto, unfolding(crate::specs::Items::kind_of_array, crate::specs::Items::id_left, crate::specs::Items::count_left))]
pub fn put_array(a: Result<Option<NextArray>, NextError>, id: &mut u16, count: &mut usize) -> u8
    ensures { ArrayPut a id.old count.old result id.new count.new }
{
    match a {
        Err(NextError::Refused(n)) => n,
        Err(NextError::MovedOn) => 3,
        Ok(None) => 0,
        Ok(Some(array)) => {
            *id = array.id;
            *count = array.count;
            1
        }
    }
}

// The listing of Final Storage, from the state and the lent ring.
#![tactic(auto)]

ghost use Rattle.std.specs.Prelude.{◌≡◌};
ghost use Rattle.storage_listing.specs.Listing.{listed};
ghost use Rattle.storage_listing.specs.Stepped.{left, stepped};
ghost use Rattle.spec_calls.specs.Stores.{ring_state};

use spec_calls::State;
use storage_listing::{Cursor, Item, NextArray, NextError};

// Item j of array k of Final Storage, both from 0.
pub fn list(state: State, ring: &[u16], k: usize, j: usize) -> Result<Option<Item>, u8>
    ensures { result ≡ listed ring.now (ring_state state) k j }
{
    storage_item::list(ring, state.ring(), k, j)
}

// The next whole array of Final Storage from a cursor on, its values in front of those lent, which are as many as the ring has words; the cursor is all
// 0 before the first.
pub fn next(
    state: State,
    ring: &[u16],
    cursor: &mut Cursor,
    values: &mut [u16],
) -> Result<Option<NextArray>, NextError>
    ensures { left result cursor.new values.new ≡ stepped ring.now (ring_state state) cursor.old values.old }
{
    storage_cursor::next(ring, state.ring(), cursor, values)
}

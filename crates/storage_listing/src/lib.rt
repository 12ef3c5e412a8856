// The search for an array of Final Storage, which the listings by item and by a cursor go by, and the refusals of the ring.
#![tactic(auto)]

mod refusal;
mod search;

pub use refusal::check_ring;
pub use search::seek;
use storage_word::Decimal;

// An item of an array: its id, or a value.
#[derive(Clone, Copy)]
pub enum Item {
    Id(u16),
    Value(Decimal),
}

// Where an array lies: its start word has `start` older words, and it ends before the word that has `end` older ones.
#[derive(Clone, Copy)]
pub struct ArraySpan {
    pub start: usize,
    pub end: usize,
}

// Where a listing by a cursor goes on: at the word with `from` older ones, of a ring that had this position and so many words filled. All 0 before the
// first array.
#[derive(Clone, Copy)]
pub struct Cursor {
    pub from: u16,
    pub position: u16,
    pub filled: u16,
}

// An array that a call with a cursor answers: its id and the count of its values.
#[derive(Clone, Copy)]
pub struct NextArray {
    pub id: u16,
    pub count: usize,
}

// Why a call with a cursor answers nothing of the ring: a refusal by its number, or that the ring has moved on since the cursor was given.
#[derive(Clone, Copy)]
pub enum NextError {
    Refused(u8),
    MovedOn,
}

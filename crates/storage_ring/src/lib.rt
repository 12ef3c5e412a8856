// Final Storage: a ring of 16-bit words that the caller lends.
#![tactic(auto)]

mod ring;

pub use ring::{word_at, write_word};

// The ring's position, where the next word is written, and how many words are filled: those lie just before it, going round.
#[derive(Clone, Copy)]
pub struct RingState {
    pub position: u16,
    pub filled: u16,
}

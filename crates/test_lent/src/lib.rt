// What the calls of a case are lent: how much of it, put by a line, and printed.
#![tactic(auto)]

mod put;
mod show;

use base_lines::value;
use base_program::{Program, Timed};
pub use put::float_at;
pub use show::item;
use spec_calls::State;

// How much of each buffer is lent.
#[derive(Clone, Copy)]
pub struct Lent {
    pub locations: usize,
    pub sums: usize,
    pub counts: usize,
    pub readings: usize,
    pub ring: usize,
}

impl Lent {
    // What is lent at first.
    pub fn new(p: &Program) -> Lent {
        Lent {
            locations: usize::from(p.locations),
            sums: usize::from(p.sums),
            counts: 297,
            readings: 196,
            ring: 64,
        }
    }

    // What is lent after a line, as far as it is there.
    pub fn set(&mut self, line: &[u8]) {
        self.locations = value(line, 1) as usize;
        self.sums = value(line, 2) as usize;
        self.counts = value(line, 3) as usize;
        self.readings = value(line, 4) as usize;
        self.ring = value(line, 5) as usize;
    }
}

// The state of a run, the buffers of its calls, and how much of each is lent.
#[derive(Drop)]
pub struct Run {
    pub state: State,
    pub lent: Lent,
    pub locations: [f32; 2001],
    pub sums: [f32; 2001],
    pub counts: [u32; 300],
    pub readings: [f32; 200],
    pub ring: [u16; 32769],
}

impl Run {
    // From fresh.
    pub fn new(p: &Program) -> Run {
        Run {
            state: spec_calls::fresh(),
            lent: Lent::new(p),
            locations: [0.0; 2001],
            sums: [0.0; 2001],
            counts: [0; 300],
            readings: [0.0; 200],
            ring: [0; 32769],
        }
    }
}

// The number of a line's word k, as a day or a time.
pub fn number(line: &[u8], k: usize) -> u32 {
    (value(line, k) % 4294967296) as u32
}

// The table that a line's first word names.
pub fn table_of(line: &[u8]) -> Timed {
    match value(line, 1) {
        1 => Timed::One,
        _ => Timed::Two,
    }
}

// Faults 18 and 20 of an entry.
#![tactic(auto)]

mod entry;

pub use entry::{
    differential_reach, need_in, one_reach, reach_fault, single_reach, three_reach, two_reach,
};

// How far an entry reaches: the least I that its locations need, those that are not indexed and those that are, on the first pass. Location 0, and
// a reading behind the last card, need 65,536.
#[derive(Clone, Copy)]
pub struct Reach {
    pub fixed: u32,
    pub moved: u32,
}

// What the listing program is fed: how far the keyed text goes, and what each later line may say.
#![tactic(auto)]

mod ending;

pub use ending::find_end;

// A later line: a reading's number and value, or a tick's day and T.
#[derive(Clone, Copy)]
pub enum Line {
    Reading(usize, f32),
    Tick(u32, u32),
}

// Locations: how one is read and stored, and measurements, each over numbers and lent buffers.
#![tactic(auto)]

mod cells;
mod measure;

pub use cells::{load, load_moved, location_of, store, store_moved};
pub use measure::{Measurable, measure_channels};

// Small floors and trips that the programs run on.
#![tactic(auto)]

mod floors;
mod trips;

pub use floors::{line, small_floor};
pub use trips::{small_trips, trip};

#![tactic(auto)]

mod allowed;
mod arrivals;
mod bans;
mod branch;
mod cart_search;
mod claims;
mod lengths;
mod rows;
mod ticks;
mod trips;
mod workspace;

pub use branch::Branch;
pub use workspace::Workspace;

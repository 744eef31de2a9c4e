#![tactic(auto)]

mod ban;
mod route;
mod trip;

pub use ban::Ban;
pub use route::{RouteRefusal, check_route, in_conflict};
pub use trip::{Length, Trip};

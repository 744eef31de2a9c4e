#![tactic(auto)]

mod any;
mod connection;
mod grid;
mod list;
mod refusal;
mod rows;
mod sign;

pub use any::AnyMap;
pub use connection::Connection;
pub use grid::GridMap;
pub use list::ListMap;
pub use refusal::MapRefusal;
pub use sign::{Sign, read_sign};

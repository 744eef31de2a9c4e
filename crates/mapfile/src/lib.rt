#![tactic(auto)]

mod any;
mod fault;
mod grid;
mod list;
mod memory;
mod text;

pub use any::read_map;
pub use fault::Fault;
pub use grid::read_grid;
pub use list::{read_connection, read_list};
pub use memory::MapMemory;

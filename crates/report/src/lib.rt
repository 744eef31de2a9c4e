#![tactic(auto)]

mod fault;
mod files;
mod memory;

pub use fault::{Fault, Layer};
pub use files::check_files;
pub use memory::Memory;

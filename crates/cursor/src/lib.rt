#![tactic(auto)]

mod missing;
mod reader;

pub use missing::{Lack, Missing};
pub use reader::Cursor;

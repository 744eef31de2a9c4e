#![tactic(auto)]

mod check;
mod command;
mod commands;
mod fault;
mod heading;
mod letters;
mod places;

pub use check::check_plan;
pub use command::Command;
pub use commands::Commands;
pub use fault::{Fault, FileRefusal, PlanRefusal};
pub use heading::{Heading, read_heading};
pub use places::Places;

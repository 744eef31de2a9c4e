#![tactic(auto)]

mod book;
mod branches;
mod call;
mod check;
mod routes;
mod run;
mod sums;
mod terms;

pub use call::Call;
pub use check::methods::open;
pub use check::{Card, Check};
pub use run::methods::run_calls;
pub use run::{CallAndStep, Run, Step};
pub use terms::Terms;

#![tactic(auto)]

mod beside;
mod conditions;
mod corridor;
mod edge;
mod operands;
mod own;
mod refusal;
mod rule;
mod target;
mod vertex;

pub use beside::Beside;
pub use conditions::{check_cart, check_place, check_tick, ensure};
pub use corridor::Corridor;
pub use edge::Edge;
pub use operands::{byte_in, cart_in, of_width};
pub use own::{OwnRules, own_rules};
pub use refusal::SplitRefusal;
pub use rule::SplitRule;
pub use target::Target;
pub use vertex::Vertex;

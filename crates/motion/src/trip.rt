ghost use Rattle.std.specs.Prelude.{Some, decimal};

use floor::{Place, Tick};
use std::fmt;
use std::fmt::{Display, Formatter};

// Where a cart starts and where it has to be in the end.
#[derive(Clone, Copy, PartialEq, Eq, Hash, Default, Debug)]
pub struct Trip {
    pub start: Place,
    pub target: Place,
}

// How long a route is: the tick from which on it stays at its target. A type of its own, so that a length and a tick
// of the clock are not taken for one another.
#[derive(Clone, Copy, PartialEq, Eq, PartialOrd, Ord, Hash, Debug)]
pub struct Length(pub Tick);

impl Display for Length {
    ghost output = { λ n. Some (decimal n.0.0) };

    fn fmt<W: fmt::Write>(&self, f: &mut Formatter<W>) -> fmt::Result {
        write!(f, "{}", self.0)
    }
}

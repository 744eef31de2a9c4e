// Places, carts and ticks as the numbers that they stand around. Each type has its own blocks, since an `impl` that a
// macro of ours writes is refused.
ghost use Rattle.std.specs.Prelude.{◌≡◌, Some, decimal};

use crate::{Cart, Place, Tick};
use std::fmt;
use std::fmt::{Display, Formatter};

impl From<Place> for usize {
    ghost from_gives = { λ p n. n ≡ p.0 };

    fn from(p: Place) -> usize {
        p.0 as usize
    }
}

impl From<Cart> for usize {
    ghost from_gives = { λ a n. n ≡ a.0 };

    fn from(a: Cart) -> usize {
        a.0 as usize
    }
}

impl Display for Place {
    ghost output = { λ n. Some (decimal n.0) };

    fn fmt<W: fmt::Write>(&self, f: &mut Formatter<W>) -> fmt::Result {
        let place = self.0;
        write!(f, "{place}")
    }
}

impl Display for Cart {
    ghost output = { λ n. Some (decimal n.0) };

    fn fmt<W: fmt::Write>(&self, f: &mut Formatter<W>) -> fmt::Result {
        let cart = self.0;
        write!(f, "{cart}")
    }
}

impl Display for Tick {
    ghost output = { λ n. Some (decimal n.0) };

    fn fmt<W: fmt::Write>(&self, f: &mut Formatter<W>) -> fmt::Result {
        let tick = self.0;
        write!(f, "{tick}")
    }
}

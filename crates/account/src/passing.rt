// Whether a cart can only go through a corridor, with the other not through before it.
use crate::earliest::earliest;
use floor::{Cart, FloorMap, Place, Tick};
use motion::Ban;
use search::{Branch, Workspace};
use std::fmt;
use std::fmt::{Display, Formatter};

// A tick of `K`, by its name.
#[derive(Clone, Copy)]
pub struct Bound {
    pub name: char,
    pub tick: Tick,
}

// A cart on its way through a corridor of length `k` by a tick, to the last place, which it enters from the near one; the
// other cart comes the other way, to the first place.
#[derive(Clone, Copy)]
pub struct Way {
    pub cart: Cart,
    pub other: Cart,
    pub first: Place,
    pub near: Place,
    pub last: Place,
    pub k: u8,
    pub by: Bound,
}

#[derive(Clone, Copy)]
pub enum PassingReason {
    // the cart comes to the last place in another way
    OtherWay { way: Way, tick: Tick },
    // the other cart comes to the first place too early
    OtherEarly { way: Way, tick: Tick },
}

impl Display for PassingReason {
    fn fmt<W: fmt::Write>(&self, f: &mut Formatter<W>) -> fmt::Result {
        match *self {
            PassingReason::OtherWay { way, tick } => {
                let Way {
                    cart,
                    near,
                    last,
                    ..
                } = way;
                let Bound { name, tick: bound } = way.by;
                write!(
                    f,
                    "cart {cart} can be at {last} at tick {tick} without the step from {near} to {last}, and {name} is {bound}"
                )
            }
            PassingReason::OtherEarly { way, tick } => {
                let Way {
                    other,
                    first,
                    k,
                    ..
                } = way;
                let Bound { name, tick: bound } = way.by;
                write!(
                    f,
                    "cart {other} can be at {first} at tick {tick}, and {tick} + {k} is below {name}, which is {bound}"
                )
            }
        }
    }
}

impl Way {
    // Whether the cart cannot be at the last place up to the tick without the last step.
    pub fn test_last_step<M: FloorMap>(
        self,
        work: &mut Workspace,
        branch: &Branch<M>,
    ) -> Result<(), PassingReason> {
        let no_last_step = Ban::Move {
            cart: self.cart,
            from: self.near,
            to: self.last,
            first: Tick(0),
            last: self.by.tick,
        };
        let end = Tick(self.by.tick.0.saturating_add(1));
        match earliest(work, branch, Some(no_last_step), self.cart, self.last, end) {
            Some(tick) => Err(PassingReason::OtherWay { way: self, tick }),
            None => Ok(()),
        }
    }

    // Whether the other cart cannot be at the first place so early that `k` ticks later it would still be before the tick.
    pub fn test_other<M: FloorMap>(
        self,
        work: &mut Workspace,
        branch: &Branch<M>,
    ) -> Result<(), PassingReason> {
        let end = Tick(self.by.tick.0.saturating_sub(u16::from(self.k)));
        match earliest(work, branch, None, self.other, self.first, end) {
            Some(tick) => Err(PassingReason::OtherEarly { way: self, tick }),
            None => Ok(()),
        }
    }
}

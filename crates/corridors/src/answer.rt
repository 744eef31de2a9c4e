// What a split on a corridor asks, as the rules say it, and the answer that follows.
use crate::corridor::{Corridor, inner};
use crate::operands::Operands;
use crate::setting::Case;
use crate::walks::{STEPS, Walks};
use floor::{Cart, Place, Tick};
use motion::Ban;

const LAST_TICK: Tick = Tick(4000);

// Why a split is refused.
#[derive(Clone, Copy)]
pub enum Fault {
    // a cart that is not there, or one cart for both
    NoCart,
    // a place off the floor
    NoPlace,
    // a tick above 4,000
    BadTick,
    // there is no corridor of this length from the one place by the other
    NoCorridor,
    // a start is an inner place
    StartsInside,
    // a tick is too far: a cart can come by it without its last move, or the other cart so early that it is through
    TooFar,
}

impl Fault {
    // The number of the refusal.
    pub fn number(self) -> u8 {
        match self {
            Fault::NoCart => 12,
            Fault::NoPlace => 6,
            Fault::BadTick => 18,
            Fault::NoCorridor | Fault::StartsInside | Fault::TooFar => 19,
        }
    }
}

impl Case<'_> {
    // The two bans of the split, or why there are none.
    pub fn answer(&self, o: Operands) -> Result<(Ban, Ban), Fault> {
        let (a, b) = self.carts(o).ok_or(Fault::NoCart)?;
        if !self.setting.floor.has(o.p) || !self.setting.floor.has(o.q) {
            return Err(Fault::NoPlace);
        }
        if o.m > LAST_TICK || o.n > LAST_TICK {
            return Err(Fault::BadTick);
        }
        let c = self.corridor(o).ok_or(Fault::NoCorridor)?;
        if inner(&c.places).contains(&a.start) || inner(&c.places).contains(&b.start) {
            return Err(Fault::StartsInside);
        }
        if a.comes_without(o.m, c.last_but_one, c.last)
            || b.comes_without(o.n, c.second, c.first)
            || b.is_through(c.first, c.length, o.m)
            || a.is_through(c.last, c.length, o.n)
        {
            return Err(Fault::TooFar);
        }
        Ok((never_at(o.a, c.last, o.m), never_at(o.b, c.first, o.n)))
    }

    // The two carts, if both are there and they are not one.
    fn carts(&self, o: Operands) -> Option<(OnFloor<'_>, OnFloor<'_>)> {
        let a = self.cart(o.a)?;
        let b = self.cart(o.b)?;
        (o.a != o.b).then_some((a, b))
    }

    fn cart(&self, cart: Cart) -> Option<OnFloor<'_>> {
        let trip = self.trips.get(usize::from(cart))?;
        let walks = self.walks.get(usize::from(cart))?;
        Some(OnFloor {
            start: trip.start,
            walks,
        })
    }

    // The corridor that the operands name.
    fn corridor(&self, o: Operands) -> Option<&Corridor> {
        self.setting
            .corridors
            .iter()
            .find(|c| c.first == o.p && c.second == o.q && c.length == o.k)
    }
}

// A cart, and where it comes to.
#[derive(Clone, Copy)]
struct OnFloor<'a> {
    start: Place,
    walks: &'a Walks,
}

impl OnFloor<'_> {
    // Whether some walk of at most so many steps ends at the one place and makes no move to it from the other.
    fn comes_without(&self, most: Tick, from: Place, to: Place) -> bool {
        (0..=STEPS).any(|u| u <= most.0 && self.walks.comes_without(u, from, to))
    }

    // Whether it can stand at the place so early that so many ticks later it is still before the tick.
    fn is_through(&self, place: Place, length: u8, tick: Tick) -> bool {
        (0..=STEPS).any(|u| {
            u.saturating_add(u16::from(length)) < tick.0 && self.walks.can_stand(u, place)
        })
    }
}

// The cart is not at the place at any tick up to this.
fn never_at(cart: Cart, place: Place, last: Tick) -> Ban {
    Ban::Stand {
        cart,
        place,
        first: Tick(0),
        last,
    }
}

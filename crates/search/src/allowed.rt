// What bans let a cart do.
ghost use Rattle.std.specs.Prelude.{◌≡◌};
ghost use Rattle.search.specs.BanLists.{all_bans};
ghost use Rattle.search.specs.Least.{can_end};
ghost use Rattle.search.specs.Lets.{within, lets_be, lets_go, lets_rest, lets_end};
ghost use Rattle.search.specs.Pushes.{can_enter};
ghost use Rattle.search.specs.Rows.{can_be, can_go};

use crate::cart_search::CartSearch;
use crate::trips::trip_of;
use floor::{Place, Tick};
use motion::{Ban, Length};

fn covers(first: Tick, last: Tick, t: Tick) -> bool
    ensures { result ≡ within first.0 last.0 t.0 }
{
    (first..=last).contains(&t)
}

impl<'a, M> CartSearch<'a, M> {
    // Whether the ban lets the cart be at the place at the tick.
    fn lets_be(&self, t: Tick, p: Place, ban: Ban) -> bool
        ensures { result ≡ lets_be self.now.trips.now self.now.cart.0 t.0 p.0 ban }
    {
        match ban {
            Ban::Stand {
                cart,
                place,
                first,
                last,
            } => !(cart == self.cart && covers(first, last, t) && place == p),
            Ban::By { cart, tick } => !(cart != self.cart
                && tick <= t
                && trip_of(self.trips, cart).target == p),
            Ban::Move { .. } | Ban::Late { .. } => true,
        }
    }

    // Whether it lets the cart go from one place to the other, or wait where they are one, arriving at the tick.
    fn lets_go(&self, t: Tick, p: Place, q: Place, ban: Ban) -> bool
        ensures { result ≡ lets_go self.now.cart.0 t.0 p.0 q.0 ban }
    {
        match ban {
            Ban::Move {
                cart,
                from,
                to,
                first,
                last,
            } => !(cart == self.cart && covers(first, last, t) && from == p && to == q),
            Ban::Stand { .. } | Ban::Late { .. } | Ban::By { .. } => true,
        }
    }

    // Whether it lets the cart be and wait at the place at every tick from this on.
    fn lets_rest(&self, n: Tick, p: Place, ban: Ban) -> bool
        ensures { result ≡ lets_rest self.now.trips.now self.now.cart.0 n.0 p.0 ban }
    {
        match ban {
            Ban::Stand {
                cart,
                place,
                first,
                last,
            } => !(cart == self.cart && first <= last && n <= last && place == p),
            Ban::Move {
                cart,
                from,
                to,
                first,
                last,
            } => !(cart == self.cart && first <= last && n < last && from == p && to == p),
            Ban::Late { .. } => true,
            Ban::By { cart, .. } => !(cart != self.cart && trip_of(self.trips, cart).target == p),
        }
    }

    // Whether it lets the cart have the length.
    fn lets_end(&self, n: Length, ban: Ban) -> bool
        ensures { result ≡ lets_end self.now.cart.0 n.0.0 ban }
    {
        match ban {
            Ban::Late { cart, tick } => cart != self.cart || tick < n.0,
            Ban::By { cart, tick } => cart != self.cart || n.0 <= tick,
            Ban::Stand { .. } | Ban::Move { .. } => true,
        }
    }

    // Whether all bans let the cart be there then.
    pub fn can_be(&self, t: Tick, p: Place) -> bool
        ensures { result ≡ can_be self.now.trips.now (all_bans self.now.bans) self.now.cart.0 t.0 p.0 }
    {
        self.bans.all(|ban| self.lets_be(t, p, ban))
    }

    // Whether all bans let it go so.
    pub fn can_go(&self, t: Tick, p: Place, q: Place) -> bool
        ensures { result ≡ can_go (all_bans self.now.bans) self.now.cart.0 t.0 p.0 q.0 }
    {
        self.bans.all(|ban| self.lets_go(t, p, q, ban))
    }

    // Whether the bans let the cart go from `p` to `q`, and be there at the tick.
    pub fn can_enter(&self, t: Tick, p: Place, q: Place) -> bool
        ensures { result ≡ can_enter self.now.trips.now (all_bans self.now.bans) self.now.cart.0 t.0 p.0 q.0 }
    {
        self.can_go(t, p, q) && self.can_be(t, q)
    }

    // Whether the bans let the cart have the length, and rest at its target then.
    pub fn can_end(&self, n: Length) -> bool
        ensures { result ≡ can_end self.now.trips.now (all_bans self.now.bans) self.now.cart.0 n.0.0 }
    {
        let target = trip_of(self.trips, self.cart).target;
        self.bans.all(|ban| self.lets_end(n, ban))
            && self.bans.all(|ban| self.lets_rest(n.0, target, ban))
    }
}

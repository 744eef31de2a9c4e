// The places that a cart can stand at, tick by tick.
ghost use Rattle.std.specs.Prelude.{◌≡◌, ℕ, ◌<◌, ◌&&◌, ◌||◌, length, ◌==◌};
ghost use Rattle.search.specs.BanLists.{all_bans};
ghost use Rattle.search.specs.Pushes.{can_enter, can_step};
ghost use Rattle.search.specs.Rows.{marked, first_row, next_row};

use crate::cart_search::CartSearch;
use crate::trips::trip_of;
use floor::{FloorMap, Place, Tick, neighbours_of};

// Whether the row marks the place.
pub fn marks(row: &[bool], p: Place) -> bool
    ensures { result ≡ marked row.now p.0 }
{
    row.get(usize::from(p)).copied().unwrap_or(false)
}

impl<'a, M: FloorMap> CartSearch<'a, M> {
    // Writes the row of tick 0.
    pub fn begin(&self, row: &mut [bool])
        ensures { row.new ≡ first_row self.now.trips.now (all_bans self.now.bans) self.now.cart.0 (length row.old) }
    {
        let start = trip_of(self.trips, self.cart).start;
        for (p, mark) in row.iter_mut().enumerate() {
            *mark = p == usize::from(start) && self.can_be(Tick(0), start);
        }
    }

    // Marks `q`, if the bans let the cart enter it from `p`. A place that is marked already asks no ban.
    fn enter(&self, t: Tick, p: Place, q: Place, next: &mut [bool])
        requires { q.0 < length next.old }
        ensures { (k : ℕ) → marked next.new k ≡ ((q.0 == k && can_enter self.now.trips.now (all_bans self.now.bans) self.now.cart.0 t.0 p.0 k) || marked next.old k) }
    {
        if next[usize::from(q)] {
            return;
        }
        if self.can_enter(t, p, q) {
            next[usize::from(q)] = true;
        }
    }

    // Marks the places that a step leads to from `p`, arriving at tick `t`.
    fn push_from(&self, t: Tick, p: Place, next: &mut [bool])
        requires within { p.0 < length next.old }
        requires next { length next.old ≡ (M.floor self.now.map.now).count }
        ensures { (k : ℕ) → marked next.new k ≡ (can_step (M.floor self.now.map.now) self.now.trips.now (all_bans self.now.bans) self.now.cart.0 t.0 p.0 k || marked next.old k) }
    {
        self.enter(t, p, p, next);
        for q in neighbours_of(self.map, p) {
            self.enter(t, p, q, next);
        }
    }

    // Writes the row of tick `t` from the row of the tick before. Each row has a mark for every place of the floor: that is
    // asked here, since a slice that is lent does not tell it.
    #[tactic(auto, using(floor::proofs::Deciding::some_below_more))]
    pub fn step(&self, t: Tick, row: &[bool], next: &mut [bool])
        requires row { length row.now ≡ (M.floor self.now.map.now).count }
        requires next { length next.old ≡ (M.floor self.now.map.now).count }
        ensures { next.new ≡ next_row (M.floor self.now.map.now) self.now.trips.now (all_bans self.now.bans) self.now.cart.0 t.0 row.now }
    {
        next.fill(false);
        for (p, &marked) in row.iter().enumerate() {
            if marked {
                self.push_from(t, Place(p as u16), next);
            }
        }
    }
}

// The places of a corridor.
ghost use Rattle.std.specs.Prelude.{◌≡◌, suc, pred, ◌+◌, ◌-◌, ◌<◌, ◌≤◌, ◌==◌, false, not, ◌&&◌, drop, take, length, nat_le, IfNone, IfSome};
ghost use Rattle.floor.specs.Tests.{every_below};
ghost use Rattle.floor.specs.Numbers.{numbers};
ghost use Rattle.motion.specs.declared.ban.Ban.TheVariants.{Stand};
ghost use Rattle.splits.specs.Corridor.{forth, back, corridor_bans, tick};
ghost use Rattle.splits.specs.CorridorTests.{onward, along, listed_at, is_narrow, all_differ, is_corridor, are_outside, is_corridor_for};

use crate::corridor::passage::{CartPassage, Passage};
use floor::{FloorMap, Place, Tick, is_joined, neighbours_of};
use motion::{Ban, Trip};
use search::{Branch, Workspace};

// The neighbour of `q` that a cart come from `p` goes on to, where `q` has two.
fn onward<M: FloorMap>(map: &M, p: Place, q: Place) -> Place
    ensures { result.0 ≡ onward (M.FloorMap.floor map.now) p.0 q.0 }
{
    neighbours_of(map, q).find(|n| *n != p).unwrap_or(Place(0))
}

// Writes the places from `p` by `q`, each the neighbour not come from.
fn follow<M: FloorMap>(map: &M, p: Place, q: Place, places: &mut [Place])
    ensures { numbers places.new ≡ along (M.FloorMap.floor map.now) p.0 q.0 (length places.old) }
{
    let (mut at, mut next) = (p, q);
    for place in places.iter_mut() {
        *place = at;
        (at, next) = (next, onward(map, at, next));
    }
}

// A passage, and the places that its operands lead to, from number 0: the corridor's are those up to number `k`.
#[derive(Clone, Copy)]
pub struct Chain {
    passage: Passage,
    places: [Place; 64],
    ghost some: { 1 ≤ passage.k },
    ghost short: { passage.k ≤ 63 },
    ghost m_in_time: { passage.m.0 ≤ 4000 },
    ghost n_in_time: { passage.n.0 ≤ 4000 },
}

impl Chain {
    // None for a length that no corridor has.
    pub fn led<M: FloorMap>(map: &M, passage: Passage) -> Option<Chain>
        requires { (passage.m.0 ≤ 4000) × (passage.n.0 ≤ 4000) }
        ensures other_length { IfNone result ((nat_le 1 passage.k && nat_le passage.k 63) ≡ false) }
        ensures same { IfSome result (λ c. c.passage ≡ passage) }
        ensures led { IfSome result (λ c. numbers c.places ≡ along (M.FloorMap.floor map.now) passage.p.0 passage.q.0 64) }
    {
        if !(1..=63).contains(&passage.k) {
            return None;
        }
        let mut places = [Place(0); 64];
        follow(map, passage.p, passage.q, &mut places);
        Some(Chain { passage, places })
    }

    // The number of the last place.
    fn end(&self) -> usize
        ensures { result ≡ self.now.passage.k }
    {
        usize::from(self.passage.k)
    }

    // All places but the two ends.
    fn inner(&self) -> &[Place]
        ensures { result.now ≡ take (self.now.passage.k - 1) (drop 1 self.now.places) }
    {
        &self.places[1..self.end()]
    }

    // Whether the inner places have two neighbours each.
    fn is_narrow<M: FloorMap>(&self, map: &M) -> bool
        ensures { result ≡ is_narrow (M.FloorMap.floor map.now) (listed_at (numbers self.now.places)) self.now.passage.k }
    {
        self.inner().iter().all(|p| map.degree(*p) == 2)
    }

    // Whether each place is none of those before it.
    fn all_differ(&self) -> bool
        ensures { result ≡ all_differ (listed_at (numbers self.now.places)) (self.now.passage.k + 1) }
    {
        let all = &self.places[..=self.end()];
        all.iter().enumerate().all(|(j, p)| !all[..j].contains(p))
    }

    // Whether the places are a corridor.
    fn is_corridor<M: FloorMap>(&self, map: &M) -> bool
        ensures { result ≡ is_corridor (M.FloorMap.floor map.now) (listed_at (numbers self.now.places)) self.now.passage.k }
    {
        is_joined(map, self.places[0], self.places[1]) && self.is_narrow(map) && self.all_differ()
    }

    // Whether the trip starts on no inner place.
    fn is_outside(&self, trip: Trip) -> bool
        ensures { result ≡ every_below (λ i. not (trip.start.0 == listed_at (numbers self.now.places) (suc i))) (pred self.now.passage.k) }
    {
        !self.inner().contains(&trip.start)
    }

    // Whether the starts of both carts are no inner places.
    fn are_outside(&self, trips: &[Trip]) -> bool
        requires { (self.now.passage.a.0 < length trips.now) × (self.now.passage.b.0 < length trips.now) }
        ensures { result ≡ are_outside trips.now self.now.passage (listed_at (numbers self.now.places)) }
    {
        self.is_outside(trips[usize::from(self.passage.a)])
            && self.is_outside(trips[usize::from(self.passage.b)])
    }

    // Whether they are a corridor as the split asks: neither cart starts within it, and each can only go through.
    pub fn is_corridor_for<M: FloorMap>(&self, work: &mut Workspace, branch: &Branch<M>) -> bool
        requires { (self.now.passage.a.0 < length branch.now.trips.now) × (self.now.passage.b.0 < length branch.now.trips.now) }
        ensures { result ≡ is_corridor_for (M.FloorMap.floor branch.now.map.now) branch.now.trips.now branch.now.bans.now self.now.passage (listed_at (numbers self.now.places)) }
    {
        self.is_corridor(branch.map)
            && self.are_outside(branch.trips)
            && self.are_passing(work, branch)
    }

    // Cart `a` on its way.
    pub fn forth(&self) -> CartPassage
        ensures { result ≡ forth self.now.passage (listed_at (numbers self.now.places)) }
    {
        CartPassage {
            cart: self.passage.a,
            other: self.passage.b,
            first: self.places[0],
            near: self.places[self.end() - 1],
            last: self.places[self.end()],
            steps: self.passage.k,
            tick: self.passage.m,
        }
    }

    // Cart `b` on its way.
    pub fn back(&self) -> CartPassage
        ensures { result ≡ back self.now.passage (listed_at (numbers self.now.places)) }
    {
        CartPassage {
            cart: self.passage.b,
            other: self.passage.a,
            first: self.places[self.end()],
            near: self.places[1],
            last: self.places[0],
            steps: self.passage.k,
            tick: self.passage.n,
        }
    }

    // Cart `a` not at the end of the corridor by `m`, and cart `b` not at its beginning by `n`.
    pub fn bans(&self) -> (Ban, Ban)
        ensures { result ≡ corridor_bans self.now.passage (listed_at (numbers self.now.places)) }
    {
        (last_place_ban(self.forth()), last_place_ban(self.back()))
    }
}

// The cart is not at its last place by the tick.
fn last_place_ban(w: CartPassage) -> Ban
    ensures { result ≡ Stand w.cart w.last (tick 0) w.tick }
{
    Ban::Stand {
        cart: w.cart,
        place: w.last,
        first: Tick(0),
        last: w.tick,
    }
}

// A branch, and what its bans leave the carts.
ghost use Rattle.std.specs.Prelude.{◌≡◌, ◌<◌, ◌≤◌, length, IfSome, IfNone, Decides};
ghost use Rattle.std.specs.Option.{option_map};
ghost use Rattle.motion.specs.Stands.{Cheaper};
ghost use Rattle.search.specs.BanLists.{with_one};
ghost use Rattle.search.specs.Least.{cheaper, least_length};
ghost use Rattle.search.specs.Meaning.{CanStand, IsLeast, StandsBefore};
ghost use Rattle.search.specs.Rows.{can_stand, stands_before};

use crate::bans::Bans;
use crate::cart_search::CartSearch;
use crate::claims::{add, is_below};
use crate::workspace::Workspace;
use floor::{Cart, FloorMap, Place, Tick};
use motion::{Ban, Length, Trip};

// The carts' trips on a floor, and the bans that their routes keep.
#[derive(Drop)]
pub struct Branch<'a, M> {
    pub map: &'a M,
    pub trips: &'a [Trip],
    pub bans: &'a [Ban],
    // each trip has its cart
    ghost few: { length trips.now ≤ 256 },
}

impl<'a, M> Branch<'a, M> {
    // The search of one cart, under one ban more where there is one.
    fn search(&self, cart: Cart, more: Option<Ban>) -> CartSearch<'a, M>
        ensures { result ≡ record { map = self.now.map; trips = self.now.trips; bans = record { branch = self.now.bans; more = more }; cart = cart } }
    {
        CartSearch {
            map: self.map,
            trips: self.trips,
            bans: Bans {
                branch: self.bans,
                more,
            },
            cart,
        }
    }

    // The same, if the cart is there: a `then` would hide from the proof what `search` gives.
    fn search_of(&self, cart: Cart, more: Option<Ban>) -> Option<CartSearch<'a, M>>
        ensures there { IfSome result (λ s. (cart.0 < length self.now.trips.now) × (s ≡ record { map = self.now.map; trips = self.now.trips; bans = record { branch = self.now.bans; more = more }; cart = cart })) }
        ensures gone { IfNone result (length self.now.trips.now ≤ cart.0) }
    {
        if usize::from(cart) >= self.trips.len() {
            return None;
        }
        Some(self.search(cart, more))
    }
}

impl<'a, M: FloorMap> Branch<'a, M> {
    // Whether some walk of the cart from its start, which the bans let it go, is at the place at the tick. No for a
    // cart that is not there, and for a place off the floor. What bans ask of the cart's length is not looked at.
    pub fn can_stand(&self, work: &mut Workspace, cart: Cart, place: Place, tick: Tick) -> bool
        ensures computed { result ≡ can_stand (M.floor self.now.map.now) self.now.trips.now self.now.bans.now cart.0 tick.0 place.0 }
        ensures means { Decides result (CanStand (M.floor self.now.map.now) self.now.trips.now self.now.bans.now cart.0 tick.0 place.0) }
    {
        let Some(search) = self.search_of(cart, None) else {
            return false;
        };
        search.run_to(work, tick);
        search.marks(work, place)
    }

    // Whether the cart can be at the place at some tick before the given one, as `can_stand` tells of one tick, under one
    // ban more where there is one. A loop over ticks, since each row is made from the row before it.
    #[tactic(auto, using(floor::proofs::Deciding::some_below_more))]
    pub fn stands_before(
        &self,
        work: &mut Workspace,
        more: Option<Ban>,
        cart: Cart,
        place: Place,
        tick: Tick,
    ) -> bool
        ensures computed { result ≡ stands_before (M.floor self.now.map.now) self.now.trips.now (with_one more self.now.bans.now) cart.0 tick.0 place.0 }
        ensures means { Decides result (StandsBefore (M.floor self.now.map.now) self.now.trips.now (with_one more self.now.bans.now) cart.0 tick.0 place.0) }
    {
        let Some(search) = self.search_of(cart, more) else {
            return false;
        };
        let Some(last) = tick.0.checked_sub(1) else {
            return false;
        };
        search.start(work);
        for u in 0..last {
            if search.marks(work, place) {
                return true;
            }
            search.advance(work, Tick(u + 1));
        }
        search.marks(work, place)
    }

    // The least length of the cart under the bans, if it is below the limit: none for a cart that is not there.
    pub fn least_length(&self, work: &mut Workspace, cart: Cart, limit: Length) -> Option<Length>
        ensures computed { option_map (λ n. n.0.0) result ≡ least_length (M.floor self.now.map.now) self.now.trips.now self.now.bans.now cart.0 limit.0.0 }
        ensures means { IsLeast (M.floor self.now.map.now) self.now.trips.now self.now.bans.now cart.0 limit.0.0 (option_map (λ n. n.0.0) result) }
    {
        self.search_of(cart, None)?.least(work, limit)
    }

    // Whether some set of routes keeps the bans and sums below the claim. Every cart is searched, up to its least
    // length or the claim, whatever the others gave: a loop, since a proof learns nothing of rows that a fold's closure
    // writes.
    pub fn cheaper(&self, work: &mut Workspace, claim: u16) -> bool
        ensures computed { result ≡ cheaper (M.floor self.now.map.now) self.now.trips.now self.now.bans.now claim }
        ensures means { Decides result (Cheaper (M.floor self.now.map.now) self.now.trips.now self.now.bans.now claim) }
    {
        let mut sum = Some(0);
        for a in 0..self.trips.len() {
            let more = self
                .search(Cart(a as u8), None)
                .least(work, Length(Tick(claim)));
            sum = add(sum, more, claim);
        }
        is_below(sum, claim)
    }
}

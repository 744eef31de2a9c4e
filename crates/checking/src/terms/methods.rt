ghost use Rattle.std.specs.Prelude.{◌≡◌, ◌<◌, ◌≤◌, length, slice_index_or, IfOk, IfErr};
ghost use Rattle.checking.specs.Checks.{opening_of};
ghost use Rattle.floor.specs.Tests.{every_below};
ghost use Rattle.motion.specs.Routes.{nowhere};
ghost use Rattle.tally.specs.Openings.{are_apart, is_on_floor, opened};
ghost use Rattle.tally.specs.declared.refusal.Refusal.TheVariants.{NoCart};

use crate::terms::Terms;
use floor::{Cart, FloorMap, Place};
use motion::Trip;
use splits::SplitRule;
use tally::Refusal;

const MOST_CLAIM: u16 = 4000;

impl<'a, M: FloorMap, R: SplitRule> Terms<'a, M, R> {
    // Whether a check may be opened so, tested in this order.
    pub(crate) fn opened(&self) -> Result<(), Refusal>
        ensures { result ≡ opened (opening_of M.FloorMap.floor R.SplitRule.rules self.now) }
    {
        if !(1..=16).contains(&self.trips.len()) {
            return Err(Refusal::Carts);
        }
        if self.claim > MOST_CLAIM {
            return Err(Refusal::Claim);
        }
        if !self.are_on_floor() {
            return Err(Refusal::NoPlace);
        }
        if !self.are_apart() {
            return Err(Refusal::Shared);
        }
        Ok(())
    }

    // The trip of the cart.
    pub(crate) fn trip(&self, cart: Cart) -> Result<Trip, Refusal>
        ensures found { IfOk result (λ trip. (cart.0 < length self.now.trips.now) × (trip ≡ slice_index_or self.now.trips.now cart.0 nowhere)) }
        ensures refused { IfErr result (λ e. (length self.now.trips.now ≤ cart.0) × (e ≡ NoCart)) }
    {
        self.trips
            .get(usize::from(cart))
            .copied()
            .ok_or(Refusal::NoCart)
    }

    // Whether all starts and targets are on the floor.
    fn are_on_floor(&self) -> bool
        ensures { result ≡ every_below (is_on_floor (opening_of M.FloorMap.floor R.SplitRule.rules self.now)) (length self.now.trips.now) }
    {
        let places = self.map.places();
        let on_floor = |place: Place| usize::from(place) < places;
        self.trips
            .iter()
            .all(|trip| on_floor(trip.start) && on_floor(trip.target))
    }

    // Whether all starts differ, and all targets: by number, as each cart is compared with those before it.
    fn are_apart(&self) -> bool
        ensures { let o = opening_of M.FloorMap.floor R.SplitRule.rules self.now in result ≡ every_below (λ a. every_below (are_apart o a) a) (length self.now.trips.now) }
    {
        (0..self.trips.len()).all(|a| self.is_apart(a))
    }

    // Whether the trip of cart number `a` shares no start and no target with those before it.
    fn is_apart(&self, a: usize) -> bool
        requires { a < length self.now.trips.now }
        ensures { result ≡ every_below (are_apart (opening_of M.FloorMap.floor R.SplitRule.rules self.now) a) a }
    {
        let trip = self.trips[a];
        self.trips[..a].iter().all(|other| trip.start != other.start && trip.target != other.target)
    }
}

// The least length of a cart under bans, by going through all walks of six steps.
use crate::small_floor::SmallFloor;
use crate::walk::Walk;
use floor::{Cart, Place, Tick};
use motion::{Ban, Trip};

// The steps of each walk. A shorter route waits at its target.
pub const STEPS: u16 = 6;

#[derive(Drop)]
pub struct AllWalks<'a> {
    pub floor: &'a SmallFloor,
    pub trips: &'a [Trip],
    pub bans: &'a [Ban],
    pub cart: Cart,
    pub start: Place,
}

impl AllWalks<'_> {
    // The least length of at most six steps, if there is one.
    pub fn least(&self) -> Option<Tick> {
        let mut least = None;
        for number in 0..walk_count(self.floor.places) {
            if let Some(length) = self.length_of(number)
                && least.is_none_or(|least| length < least)
            {
                least = Some(length);
            }
        }
        least
    }

    // The length of the walk of this number, if it is a walk that keeps the bans and arrives.
    fn length_of(&self, number: u32) -> Option<Tick> {
        let places = self.places_of(number)?;
        let walk = Walk {
            trips: self.trips,
            cart: self.cart,
            places: &places,
        };
        let length = walk.length()?;
        let kept = self.bans.iter().all(|ban| walk.keeps(length, *ban));
        kept.then_some(length)
    }

    // The places that the number's digits name, one for each step, if each step is one that the floor has.
    fn places_of(&self, number: u32) -> Option<[Place; 7]> {
        let mut places = [self.start; 7];
        let mut rest = number;
        let mut at = self.start;
        for place in places.iter_mut().skip(1) {
            let next = Place(last_digit(rest, self.floor.places));
            if !self.floor.may_step(at, next) {
                return None;
            }
            *place = next;
            at = next;
            rest /= u32::from(self.floor.places.max(1));
        }
        Some(places)
    }
}

// How many numbers of six digits there are, each digit a place.
fn walk_count(places: u16) -> u32 {
    let mut count = 1u32;
    for _ in 0..STEPS {
        count = count.saturating_mul(u32::from(places));
    }
    count
}

fn last_digit(number: u32, places: u16) -> u16 {
    let digit = number % u32::from(places.max(1));
    u16::try_from(digit).unwrap_or(0)
}

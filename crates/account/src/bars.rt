// Why a check is barred.
use crate::answers::Reason;
use floor::{FloorMap, Place};
use motion::Trip;
use std::fmt;
use std::fmt::{Display, Formatter};
use tally::Refusal;

const MOST_CLAIM: u16 = 4000;

// What is wrong with an opening. Carts stand in it by their numbers.
#[derive(Clone, Copy)]
pub enum Bar {
    // how many carts there are
    Carts(u8),
    Claim(u16),
    StartOff {
        cart: usize,
        place: Place,
    },
    TargetOff {
        cart: usize,
        place: Place,
    },
    StartShared {
        one: usize,
        other: usize,
        place: Place,
    },
    TargetShared {
        one: usize,
        other: usize,
        place: Place,
    },
}

impl Display for Bar {
    fn fmt<W: fmt::Write>(&self, f: &mut Formatter<W>) -> fmt::Result {
        match *self {
            Bar::Carts(carts) => write!(f, "{carts} carts, and a check has 1 to 16"),
            Bar::Claim(claim) => write!(f, "the claim {claim} is above {MOST_CLAIM}"),
            Bar::StartOff { cart, place } => {
                write!(f, "the start {place} of cart {cart} is not on the floor")
            }
            Bar::TargetOff { cart, place } => {
                write!(f, "the target {place} of cart {cart} is not on the floor")
            }
            Bar::StartShared { one, other, place } => {
                write!(f, "carts {one} and {other} share the start {place}")
            }
            Bar::TargetShared { one, other, place } => {
                write!(f, "carts {one} and {other} share the target {place}")
            }
        }
    }
}

impl Reason for Bar {
    fn refusal(&self) -> Refusal {
        match self {
            Bar::Carts(_) => Refusal::Carts,
            Bar::Claim(_) => Refusal::Claim,
            Bar::StartOff { .. } | Bar::TargetOff { .. } => Refusal::NoPlace,
            Bar::StartShared { .. } | Bar::TargetShared { .. } => Refusal::Shared,
        }
    }
}

// The first that fits.
pub fn bar_of<M: FloorMap>(map: &M, claim: u16, trips: &[Trip]) -> Option<Bar> {
    if claim > MOST_CLAIM {
        return Some(Bar::Claim(claim));
    }
    let mut numbered = trips.iter().enumerate();
    numbered
        .find_map(|(cart, trip)| off_floor(map, cart, *trip))
        .or_else(|| (0..trips.len()).find_map(|cart| shared(trips, cart)))
}

fn off_floor<M: FloorMap>(map: &M, cart: usize, trip: Trip) -> Option<Bar> {
    let Trip { start, target } = trip;
    if usize::from(start) >= map.places() {
        return Some(Bar::StartOff { cart, place: start });
    }
    if usize::from(target) >= map.places() {
        return Some(Bar::TargetOff {
            cart,
            place: target,
        });
    }
    None
}

// What the cart shares with one before it.
fn shared(trips: &[Trip], other: usize) -> Option<Bar> {
    let Trip { start, target } = *trips.get(other)?;
    let mut before = trips.iter().enumerate().take(other);
    before.find_map(|(one, trip)| {
        if trip.start == start {
            let place = start;
            return Some(Bar::StartShared { one, other, place });
        }
        if trip.target == target {
            let place = target;
            return Some(Bar::TargetShared { one, other, place });
        }
        None
    })
}

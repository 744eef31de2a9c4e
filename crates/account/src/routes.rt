// Why a route is refused.
use crate::answers::Reason;
use crate::conflicts::{Conflict, first_conflict};
use floor::{Cart, FloorMap, Place, is_joined};
use motion::Trip;
use plan::Places;
use std::fmt;
use std::fmt::{Display, Formatter};
use tally::Refusal;

// A route that was shown.
#[derive(Clone, Copy)]
pub struct Shown<'a> {
    pub cart: Cart,
    pub places: Places<'a>,
}

// What is wrong with a route. It has a place at least, and at most 255 steps, as any route of a plan file.
#[derive(Clone, Copy)]
pub enum RouteReason {
    NoCart(Cart),
    // the cart has a route already
    Again(Cart),
    PlaceOff {
        place: Place,
        tick: usize,
    },
    OtherStart {
        first: Place,
        start: Place,
    },
    OtherEnd {
        last: Place,
        target: Place,
    },
    NoStep {
        from: Place,
        to: Place,
        arrival: usize,
    },
    WaitsAtLast,
    InConflict {
        cart: Cart,
        conflict: Conflict,
    },
}

impl Display for RouteReason {
    fn fmt<W: fmt::Write>(&self, f: &mut Formatter<W>) -> fmt::Result {
        match *self {
            RouteReason::NoCart(cart) => write!(f, "there is no cart {cart}"),
            RouteReason::Again(cart) => write!(f, "cart {cart} has a route already"),
            RouteReason::PlaceOff { place, tick } => {
                write!(f, "place {place} at tick {tick} is not on the floor")
            }
            RouteReason::OtherStart { first, start } => {
                write!(f, "it starts at {first} and not at {start}")
            }
            RouteReason::OtherEnd { last, target } => {
                write!(f, "it ends at {last} and not at {target}")
            }
            RouteReason::NoStep { from, to, arrival } => write!(
                f,
                "from {from} to {to}, arriving at tick {arrival}, is neither a wait nor a step to a neighbour"
            ),
            RouteReason::WaitsAtLast => write!(f, "its last step is a wait at the target"),
            RouteReason::InConflict { cart, conflict } => write!(f, "with cart {cart}, {conflict}"),
        }
    }
}

impl Reason for RouteReason {
    fn refusal(&self) -> Refusal {
        match self {
            RouteReason::NoCart(_) => Refusal::NoCart,
            RouteReason::Again(_) => Refusal::Shown,
            RouteReason::PlaceOff { .. } => Refusal::NoPlace,
            RouteReason::OtherStart { .. }
            | RouteReason::OtherEnd { .. }
            | RouteReason::NoStep { .. }
            | RouteReason::WaitsAtLast => Refusal::BadRoute,
            RouteReason::InConflict { .. } => Refusal::InConflict,
        }
    }
}

// Tests a route as a check does, with those shown before it.
pub fn test_route<M: FloorMap>(
    map: &M,
    trips: &[Trip],
    shown: &[Shown],
    cart: Cart,
    places: &[Place],
) -> Result<(), RouteReason> {
    let trip = trips
        .get(usize::from(cart))
        .ok_or(RouteReason::NoCart(cart))?;
    if shown.iter().any(|route| route.cart == cart) {
        return Err(RouteReason::Again(cart));
    }
    test_places(map, places)?;
    test_ends(*trip, places)?;
    test_steps(map, places)?;
    test_conflicts(shown, places)
}

fn test_places<M: FloorMap>(map: &M, places: &[Place]) -> Result<(), RouteReason> {
    for (tick, &place) in places.iter().enumerate() {
        if usize::from(place) >= map.places() {
            return Err(RouteReason::PlaceOff { place, tick });
        }
    }
    Ok(())
}

fn test_ends(trip: Trip, places: &[Place]) -> Result<(), RouteReason> {
    let Trip { start, target } = trip;
    if let Some(&first) = places.first()
        && first != start
    {
        return Err(RouteReason::OtherStart { first, start });
    }
    if let Some(&last) = places.last()
        && last != target
    {
        return Err(RouteReason::OtherEnd { last, target });
    }
    Ok(())
}

fn test_steps<M: FloorMap>(map: &M, places: &[Place]) -> Result<(), RouteReason> {
    for (arrival, (&from, &to)) in (1usize..).zip(places.iter().zip(places.iter().skip(1))) {
        if from != to && !is_joined(map, from, to) {
            return Err(RouteReason::NoStep { from, to, arrival });
        }
    }
    match places {
        [.., before, last] if before == last => Err(RouteReason::WaitsAtLast),
        _ => Ok(()),
    }
}

fn test_conflicts(shown: &[Shown], places: &[Place]) -> Result<(), RouteReason> {
    for Shown {
        cart,
        places: other,
    } in shown {
        if let Some(conflict) = first_conflict(places, &other.decode()) {
            let cart = *cart;
            return Err(RouteReason::InConflict { cart, conflict });
        }
    }
    Ok(())
}

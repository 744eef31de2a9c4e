ghost use Rattle.std.specs.Prelude.{◌≡◌, ◌+◌, ◌<◌, max, length, nat_lt, Some};
ghost use Rattle.floor.specs.Tests.{every};
ghost use Rattle.floor.specs.Numbers.{numbers};
ghost use Rattle.motion.specs.Listed.{clash, goes_on, in_conflict, may_step, is_route, place_at, route_check, ConflictTestTells, RouteTestTells};
ghost use Rattle.motion.specs.Refusals.{number_of, word_of};

use crate::trip::Trip;
use floor::{FloorMap, Place, Tick, is_joined};
use std::error::Error;
use std::fmt;
use std::fmt::{Display, Formatter};

// Why a list of places is no route of a cart.
#[derive(Clone, Copy, PartialEq, Eq, Debug)]
pub enum RouteRefusal {
    // a place that is not on the floor
    NoPlace = 6,
    // empty, more than 255 steps, another start or end, a step that neither stays nor goes to a neighbour, or a last
    // step that waits at the target
    NoRoute = 14,
}

impl Display for RouteRefusal {
    ghost output = { λ refusal. Some (word_of refusal) };

    fn fmt<W: fmt::Write>(&self, f: &mut Formatter<W>) -> fmt::Result {
        let word = match self {
            Self::NoPlace => "no place",
            Self::NoRoute => "route",
        };
        f.write_str(word)
    }
}

impl Error for RouteRefusal {}

impl RouteRefusal {
    pub fn number(self) -> u8
        ensures { result ≡ number_of self }
    {
        self as u8
    }
}

// Whether the places are a route for the trip.
pub fn check_route<M: FloorMap>(map: &M, trip: Trip, places: &[Place]) -> Result<(), RouteRefusal>
    ensures is_the_route_test { result ≡ route_check (M.FloorMap.floor map.now) trip.start.0 trip.target.0 (numbers places.now) }
    ensures each_answer_exactly { RouteTestTells (M.FloorMap.floor map.now) trip.start.0 trip.target.0 (numbers places.now) }
{
    if !on_floor(map, places) {
        return Err(RouteRefusal::NoPlace);
    }
    if !is_route(map, trip, places) {
        return Err(RouteRefusal::NoRoute);
    }
    Ok(())
}

fn on_floor<M: FloorMap>(map: &M, places: &[Place]) -> bool
    ensures { result ≡ every (λ p. nat_lt p (M.FloorMap.floor map.now).count) (numbers places.now) }
{
    places.iter().all(|p| usize::from(*p) < map.places())
}

// Whether the places are a route of at most 255 steps from the start to the target.
fn is_route<M: FloorMap>(map: &M, trip: Trip, places: &[Place]) -> bool
    ensures { result ≡ is_route (M.FloorMap.floor map.now) trip.start.0 trip.target.0 (numbers places.now) }
{
    if places.is_empty() || places.len() > 256 {
        return false;
    }
    let last = places.len() - 1;
    let ends = places[0] == trip.start && places[last] == trip.target;
    ends && (0..last).all(|t| goes_on(map, places, Tick(t as u16)))
}

// Whether the step after the tick is one that the floor has, and no wait if it is the last.
fn goes_on<M: FloorMap>(map: &M, places: &[Place], tick: Tick) -> bool
    requires { tick.0 + 1 < length places.now }
    ensures { result ≡ goes_on (M.FloorMap.floor map.now) (numbers places.now) tick.0 }
{
    let t = usize::from(tick.0);
    let from = places[t];
    let to = places[t + 1];
    may_step(map, from, to) && (t + 2 < places.len() || from != to)
}

// Whether the floor has the step: a wait, or a move to a neighbour.
fn may_step<M: FloorMap>(map: &M, from: Place, to: Place) -> bool
    ensures { result ≡ may_step (M.FloorMap.floor map.now) from.0 to.0 }
{
    to == from || is_joined(map, from, to)
}

// Whether the routes that two lists of places stand for conflict: an empty list conflicts with nothing. Tested tick by
// tick, as the shorter list goes on at its last place.
pub fn in_conflict(a: &[Place], b: &[Place]) -> bool
    ensures is_the_conflict_test { result ≡ in_conflict (numbers a.now) (numbers b.now) }
    ensures conflict_exactly { ConflictTestTells (numbers a.now) (numbers b.now) }
{
    !a.is_empty() && !b.is_empty() && (0..a.len().max(b.len())).any(|t| clashes(a, b, t))
}

// Whether they are at one place at the tick, or swap places in the step after it.
fn clashes(a: &[Place], b: &[Place], tick: usize) -> bool
    requires { (0 < length a.now) × ((0 < length b.now) × (tick < max (length a.now) (length b.now))) }
    ensures { result ≡ clash (place_at (numbers a.now)) (place_at (numbers b.now)) tick }
{
    let p = place_at(a, tick);
    let q = place_at(b, tick);
    p == q || p == place_at(b, tick + 1) && place_at(a, tick + 1) == q
}

// Where a list of places is at a tick.
fn place_at(places: &[Place], tick: usize) -> Place
    requires { 0 < length places.now }
    ensures { result.0 ≡ place_at (numbers places.now) tick }
{
    places[tick.min(places.len() - 1)]
}

// Where two routes conflict first.
use floor::Place;
use std::fmt;
use std::fmt::{Display, Formatter};

// A conflict of a route with another one.
#[derive(Clone, Copy)]
pub enum Conflict {
    Meeting {
        place: Place,
        tick: usize,
    },
    // the route's own step, which the other one makes the other way round
    Swap {
        from: Place,
        to: Place,
        arrival: usize,
    },
}

impl Display for Conflict {
    fn fmt<W: fmt::Write>(&self, f: &mut Formatter<W>) -> fmt::Result {
        match *self {
            Conflict::Meeting { place, tick } => write!(f, "both at {place} at tick {tick}"),
            Conflict::Swap { from, to, arrival } => write!(
                f,
                "from {from} to {to} against its step from {to} to {from}, arriving at tick {arrival}"
            ),
        }
    }
}

// The first conflict of a route with another one.
pub fn first_conflict(route: &[Place], other: &[Place]) -> Option<Conflict> {
    (0..route.len().max(other.len())).find_map(|tick| conflict_at(route, other, tick))
}

// At one place at the tick, or a swap in the step behind it.
fn conflict_at(route: &[Place], other: &[Place], tick: usize) -> Option<Conflict> {
    let arrival = tick.saturating_add(1);
    let from = place_at(route, tick)?;
    let to = place_at(route, arrival)?;
    if place_at(other, tick)? == from {
        return Some(Conflict::Meeting { place: from, tick });
    }
    if place_at(other, tick)? == to && place_at(other, arrival)? == from {
        return Some(Conflict::Swap { from, to, arrival });
    }
    None
}

// Where a route is at a tick.
fn place_at(route: &[Place], tick: usize) -> Option<Place> {
    route.get(tick).or(route.last()).copied()
}

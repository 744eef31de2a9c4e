// Whether places are a corridor for two carts, and what is wrong first where they are not.
use crate::passing::{Bound, PassingReason, Way};
use floor::{Cart, FloorMap, Place, Tick, is_joined, neighbours_of};
use motion::Trip;
use search::{Branch, Workspace};
use std::fmt;
use std::fmt::{Display, Formatter};

const MOST_LENGTH: u8 = 63;

// The operands of `K`.
#[derive(Clone, Copy)]
pub struct Corridor {
    pub a: Cart,
    pub b: Cart,
    pub p: Place,
    pub q: Place,
    pub k: u8,
    pub m: Tick,
    pub n: Tick,
}

#[derive(Clone, Copy)]
pub enum CorridorReason {
    Length(u8),
    Apart { p: Place, q: Place },
    NotNarrow { place: Place, neighbours: usize },
    Twice(Place),
    StartsWithin { cart: Cart, start: Place },
    Passing(PassingReason),
}

impl Display for CorridorReason {
    fn fmt<W: fmt::Write>(&self, f: &mut Formatter<W>) -> fmt::Result {
        match *self {
            CorridorReason::Length(k) => write!(f, "the length {k} is not 1 to {MOST_LENGTH}"),
            CorridorReason::Apart { p, q } => write!(f, "places {p} and {q} are not neighbours"),
            CorridorReason::NotNarrow { place, neighbours } => {
                write!(f, "the inner place {place} has {neighbours} neighbours")
            }
            CorridorReason::Twice(place) => write!(f, "place {place} comes twice"),
            CorridorReason::StartsWithin { cart, start } => {
                write!(f, "cart {cart} starts at the inner place {start}")
            }
            CorridorReason::Passing(reason) => write!(f, "{reason}"),
        }
    }
}

impl Corridor {
    // Tests it as the rule of `K` does, once the carts, the first two places and the ticks are.
    pub fn test<M: FloorMap>(
        &self,
        work: &mut Workspace,
        branch: &Branch<M>,
    ) -> Result<(), CorridorReason> {
        let Corridor { a, b, p, q, k, .. } = *self;
        if !(1..=MOST_LENGTH).contains(&k) {
            return Err(CorridorReason::Length(k));
        }
        if !is_joined(branch.map, p, q) {
            return Err(CorridorReason::Apart { p, q });
        }
        let places = self.follow(branch.map)?;
        let places = &places[..=usize::from(k)];
        test_repeated(places)?;
        test_start(branch.trips, a, places)?;
        test_start(branch.trips, b, places)?;
        self.test_passing(work, branch, places)
            .map_err(CorridorReason::Passing)
    }

    // The places of the corridor: those up to number k.
    fn follow<M: FloorMap>(&self, map: &M) -> Result<[Place; 64], CorridorReason> {
        let mut places = [self.q; 64];
        places[0] = self.p;
        let (mut before, mut at) = (self.p, self.q);
        let further = usize::from(self.k).saturating_sub(1);
        for place in places.iter_mut().skip(2).take(further) {
            (before, at) = (at, onward(map, before, at)?);
            *place = at;
        }
        Ok(places)
    }

    // Whether each cart has to go through, and the other cannot be through before.
    fn test_passing<M: FloorMap>(
        &self,
        work: &mut Workspace,
        branch: &Branch<M>,
        places: &[Place],
    ) -> Result<(), PassingReason> {
        let (Some(forth), Some(back)) = (self.forth(places), self.back(places)) else {
            return Ok(());
        };
        forth.test_last_step(work, branch)?;
        back.test_last_step(work, branch)?;
        forth.test_other(work, branch)?;
        back.test_other(work, branch)
    }

    // Cart `a` on its way.
    fn forth(&self, places: &[Place]) -> Option<Way> {
        let [.., near, last] = places else {
            return None;
        };
        Some(Way {
            cart: self.a,
            other: self.b,
            first: self.p,
            near: *near,
            last: *last,
            k: self.k,
            by: Bound {
                name: 'm',
                tick: self.m,
            },
        })
    }

    // Cart `b` on its way.
    fn back(&self, places: &[Place]) -> Option<Way> {
        Some(Way {
            cart: self.b,
            other: self.a,
            first: *places.last()?,
            near: self.q,
            last: self.p,
            k: self.k,
            by: Bound {
                name: 'n',
                tick: self.n,
            },
        })
    }
}

// The place behind an inner one, which is come to from the place before it.
fn onward<M: FloorMap>(map: &M, before: Place, place: Place) -> Result<Place, CorridorReason> {
    let neighbours = map.degree(place);
    match neighbours_of(map, place).find(|p| *p != before) {
        Some(next) if neighbours == 2 => Ok(next),
        _ => Err(CorridorReason::NotNarrow { place, neighbours }),
    }
}

fn test_repeated(places: &[Place]) -> Result<(), CorridorReason> {
    for (i, place) in places.iter().enumerate() {
        if places.iter().take(i).any(|p| p == place) {
            return Err(CorridorReason::Twice(*place));
        }
    }
    Ok(())
}

// The cart starts at none of the places between the two ends.
fn test_start(trips: &[Trip], cart: Cart, places: &[Place]) -> Result<(), CorridorReason> {
    let [_, inner @ .., _] = places else {
        return Ok(());
    };
    match trips.get(usize::from(cart)) {
        Some(trip) if inner.contains(&trip.start) => Err(CorridorReason::StartsWithin {
            cart,
            start: trip.start,
        }),
        _ => Ok(()),
    }
}

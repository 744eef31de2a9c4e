// All walks of a cart that keep the bans, gone through one by one, and where they come to.
use crate::small_floor::SmallFloor;
use floor::{Cart, Place};
use motion::{Ban, Trip};

// The steps of the longest walks.
pub const STEPS: u16 = 8;

// The walks of some number of steps that end at some place.
#[derive(Clone, Copy, Default)]
struct Ends {
    // whether there is one
    some: bool,
    // the moves that one of them makes at no step, a bit each
    without: u64,
}

// For each number of steps and each place, the walks that end there.
#[derive(Clone, Copy, Default)]
pub struct Walks {
    ends: [[Ends; 6]; 9],
}

impl Walks {
    fn add(&mut self, tick: u16, place: Place, made: u64) {
        if let Some(row) = self.ends.get_mut(usize::from(tick))
            && let Some(ends) = row.get_mut(usize::from(place))
        {
            ends.some = true;
            ends.without |= !made;
        }
    }

    fn ends_at(&self, tick: u16, place: Place) -> Ends {
        match self.ends.get(usize::from(tick)) {
            Some(row) => row.get(usize::from(place)).copied().unwrap_or_default(),
            None => Ends::default(),
        }
    }

    // Whether some walk of so many steps ends at the place.
    pub fn can_stand(&self, tick: u16, place: Place) -> bool {
        self.ends_at(tick, place).some
    }

    // Whether some walk of so many steps ends at the place and makes the move to it at no step.
    pub fn comes_without(&self, tick: u16, from: Place, to: Place) -> bool {
        self.ends_at(tick, to).without & move_bit(from, to) != 0
    }
}

fn move_bit(from: Place, to: Place) -> u64 {
    if from.0 < 6 && to.0 < 6 {
        1 << (6 * from.0 + to.0)
    } else {
        0
    }
}

// Goes through the walks of a cart.
#[derive(Drop)]
pub struct Walker<'a> {
    floor: &'a SmallFloor,
    trips: &'a [Trip],
    bans: &'a [Ban],
    cart: Cart,
    walks: Walks,
}

// A walk: where it ends, after how many steps, and the moves that it makes.
#[derive(Clone, Copy)]
struct Walk {
    at: Place,
    tick: u16,
    made: u64,
}

// All walks of the cart of up to eight steps.
pub fn all_walks(floor: &SmallFloor, trips: &[Trip], bans: &[Ban], cart: Cart) -> Walks {
    let mut walker = Walker {
        floor,
        trips,
        bans,
        cart,
        walks: Walks::default(),
    };
    if let Some(trip) = trips.get(usize::from(cart)) {
        walker.begin(trip.start);
    }
    walker.walks
}

impl Walker<'_> {
    fn begin(&mut self, start: Place) {
        if self.may_be(0, start) {
            let walk = Walk {
                at: start,
                tick: 0,
                made: 0,
            };
            self.go_on(walk, STEPS);
        }
    }

    // The walk, and all that go on from it by at most so many steps.
    fn go_on(&mut self, walk: Walk, left: u16) {
        self.walks.add(walk.tick, walk.at, walk.made);
        let Some(left) = left.checked_sub(1) else {
            return;
        };
        for q in 0..self.floor.places {
            if let Some(longer) = self.longer(walk, Place(q)) {
                self.go_on(longer, left);
            }
        }
    }

    // The walk with a step to the place, where the floor and the bans let it.
    fn longer(&self, walk: Walk, to: Place) -> Option<Walk> {
        let tick = walk.tick.saturating_add(1);
        let steps = walk.at == to || self.floor.joins(walk.at, to);
        if !steps || !self.may_go(tick, walk.at, to) || !self.may_be(tick, to) {
            return None;
        }
        Some(Walk {
            at: to,
            tick,
            made: walk.made | move_bit(walk.at, to),
        })
    }

    // Whether no stand ban on the cart forbids the place, and no other cart's by ban closes it.
    fn may_be(&self, t: u16, p: Place) -> bool {
        self.bans.iter().all(|ban| match *ban {
            Ban::Stand {
                cart,
                place,
                first,
                last,
            } => cart != self.cart || place != p || t < first.0 || last.0 < t,
            Ban::By { cart, tick } => {
                cart == self.cart || t < tick.0 || self.target_of(cart) != Some(p)
            }
            Ban::Move { .. } | Ban::Late { .. } => true,
        })
    }

    // Whether no move ban on the cart forbids the step that arrives at the tick.
    fn may_go(&self, t: u16, p: Place, q: Place) -> bool {
        self.bans.iter().all(|ban| match *ban {
            Ban::Move {
                cart,
                from,
                to,
                first,
                last,
            } => cart != self.cart || from != p || to != q || t < first.0 || last.0 < t,
            Ban::Stand { .. } | Ban::Late { .. } | Ban::By { .. } => true,
        })
    }

    fn target_of(&self, cart: Cart) -> Option<Place> {
        self.trips.get(usize::from(cart)).map(|trip| trip.target)
    }
}

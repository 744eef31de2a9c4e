// Routes whose lengths add up to the least sum.
use crate::arrangement::Arrangement;
use crate::carts::{BITS, cart_count, carts_below};
use crate::joint::JointStep;
use crate::sums::LeastSums;
use floor::Place;
use std::alloc::{AllocError, Global};

pub type Route = Vec<Place>;

// How many steps a route has.
pub fn steps_of(route: &[Place]) -> u16 {
    u16::try_from(route.len().saturating_sub(1)).unwrap_or(u16::MAX)
}

// More ticks than a route of least sum has on six places.
const TICKS: usize = 1000;

// What routes are read from: the arrangements, the steps between them and the least sums.
#[derive(Drop)]
pub struct LeastRoutes<'a> {
    pub stands: &'a [Arrangement],
    pub steps: &'a [JointStep],
    pub sums: &'a LeastSums,
}

impl LeastRoutes<'_> {
    // The least sum of the carts' lengths from where they start.
    pub fn least(&self, start: usize) -> u16 {
        let carts = self.stands.get(start).map_or(0, |places| places.len());
        self.sums.sum(carts_below(carts), start)
    }

    // The routes of all carts from where they start, if there are any.
    pub fn routes(&self, heap: Global, start: usize) -> Result<Option<Vec<Route>>, AllocError> {
        let Some(places) = self.stands.get(start) else {
            return Ok(None);
        };
        let mut routes = first_places(heap, places)?;
        let mut at = start;
        let mut set = carts_below(places.len());
        for _ in 0..TICKS {
            set = self.under_way(set, at);
            if set == 0 {
                return Ok(Some(routes));
            }
            let Some(next) = self.next(set, at) else {
                return Ok(None);
            };
            at = next;
            self.lengthen(&mut routes, set, at)?;
        }
        Ok(None)
    }

    // The carts that are still under way, where each stays at its target as soon as the sum allows it.
    fn under_way(&self, set: u8, at: usize) -> u8 {
        let mut left = set;
        for bit in &BITS {
            if self.may_stay(left, at, *bit) {
                left ^= bit;
            }
        }
        left
    }

    fn may_stay(&self, set: u8, at: usize, bit: u8) -> bool {
        set & bit != 0
            && self.sums.is_home(at, bit)
            && self.sums.sum(set ^ bit, at) == self.sums.sum(set, at)
    }

    // Where a step leads that is on the way to the least sum.
    fn next(&self, set: u8, at: usize) -> Option<usize> {
        let sum = self.sums.sum(set, at);
        let cost = cart_count(set);
        self.steps
            .iter()
            .find(|step| {
                step.from == at
                    && step.movers | set == set
                    && self.sums.sum(set, step.to).saturating_add(cost) == sum
            })
            .map(|step| step.to)
    }

    // Adds where the carts of the set stand now.
    fn lengthen(&self, routes: &mut [Route], set: u8, at: usize) -> Result<(), AllocError> {
        let Some(places) = self.stands.get(at) else {
            return Ok(());
        };
        for ((route, place), bit) in routes.iter_mut().zip(places).zip(&BITS) {
            if set & bit != 0 {
                route.push(*place)?;
            }
        }
        Ok(())
    }
}

fn first_places(heap: Global, places: &[Place]) -> Result<Vec<Route>, AllocError> {
    let mut routes = Vec::new(heap);
    for place in places {
        routes.push(vec![in heap; *place]?)?;
    }
    Ok(routes)
}

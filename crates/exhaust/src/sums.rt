// The least sums of conflict-free routes, by a search over all carts' places at once.
//
// A cart is under way until the tick from which on it stays at its target. So the sum of the routes' lengths adds, over
// the ticks, how many carts are under way, and what is still to be paid depends only on where the carts stand and which
// of them are under way.
use crate::arrangement::Arrangement;
use crate::carts::{BITS, cart_count, carts_below};
use crate::joint::JointStep;
use floor::Place;
use std::alloc::{AllocError, Global};

// Where there is no sum.
pub const NONE: u16 = u16::MAX;

// More rounds than there are arrangements of three carts on six places.
const ROUNDS: usize = 1000;

// For one arrangement of targets.
#[derive(Drop)]
pub struct LeastSums {
    // for each arrangement the set of the carts that stand at their targets
    pub at_targets: Vec<u8>,
    // for each set of carts under way, by its number, the least sum from each arrangement
    pub tables: Vec<Vec<u16>>,
    // whether some table was not complete after all rounds
    pub cut: bool,
}

impl LeastSums {
    pub fn new(
        heap: Global,
        stands: &[Arrangement],
        steps: &[JointStep],
        targets: &[Place],
    ) -> Result<LeastSums, AllocError> {
        let at_targets = at_targets(heap, stands, targets)?;
        let mut sums = LeastSums {
            at_targets,
            tables: Vec::new(heap),
            cut: false,
        };
        sums.push_arrived(heap, carts_below(targets.len()))?;
        for set in 1..=carts_below(targets.len()) {
            sums.push_table(heap, steps, set)?;
        }
        Ok(sums)
    }

    // The table of no cart under way: nothing is to be paid where all carts are at their targets.
    fn push_arrived(&mut self, heap: Global, all: u8) -> Result<(), AllocError> {
        let mut table = Vec::new(heap);
        for carts in &self.at_targets {
            table.push(if *carts == all { 0 } else { NONE })?;
        }
        self.tables.push(table)?;
        Ok(())
    }

    // The table of a set, from those of the smaller sets.
    fn push_table(&mut self, heap: Global, steps: &[JointStep], set: u8) -> Result<(), AllocError> {
        let mut table = vec![in heap; NONE; self.at_targets.len()]?;
        for bit in &BITS {
            self.arrive(&mut table, set, *bit);
        }
        if !complete(&mut table, steps, set) {
            self.cut = true;
        }
        self.tables.push(table)?;
        Ok(())
    }

    // Where a cart of the set stands at its target, it may stay there from now on.
    fn arrive(&self, table: &mut [u16], set: u8, bit: u8) {
        if set & bit == 0 {
            return;
        }
        for (i, sum) in table.iter_mut().enumerate() {
            if self.is_home(i, bit) {
                *sum = (*sum).min(self.sum(set ^ bit, i));
            }
        }
    }

    // Whether in the arrangement the cart is at its target.
    pub fn is_home(&self, i: usize, bit: u8) -> bool {
        self.at_targets.get(i).is_some_and(|carts| carts & bit != 0)
    }

    // The least sum from the arrangement where this set is under way.
    pub fn sum(&self, set: u8, i: usize) -> u16 {
        match self.tables.get(usize::from(set)) {
            Some(table) => sum_in(table, i),
            None => NONE,
        }
    }
}

fn sum_in(table: &[u16], i: usize) -> u16 {
    table.get(i).copied().unwrap_or(NONE)
}

fn at_targets(
    heap: Global,
    stands: &[Arrangement],
    targets: &[Place],
) -> Result<Vec<u8>, AllocError> {
    let mut at_targets = Vec::new(heap);
    for places in stands {
        at_targets.push(carts_at(places, targets))?;
    }
    Ok(at_targets)
}

// The set of carts that stand at their targets.
fn carts_at(places: &[Place], targets: &[Place]) -> u8 {
    let mut set = 0;
    for ((p, target), bit) in places.iter().zip(targets).zip(&BITS) {
        if p == target {
            set |= bit;
        }
    }
    set
}

// Goes over the steps until none makes a sum less: whether that came to an end.
fn complete(table: &mut [u16], steps: &[JointStep], set: u8) -> bool {
    let cost = cart_count(set);
    for _ in 0..ROUNDS {
        if !lower(table, steps, set, cost) {
            return true;
        }
    }
    false
}

// Whether some step of carts of the set makes a sum less. A step costs one for each cart under way.
fn lower(table: &mut [u16], steps: &[JointStep], set: u8, cost: u16) -> bool {
    let mut lowered = false;
    for step in steps.iter().filter(|step| step.movers | set == set) {
        let sum = sum_in(table, step.to).saturating_add(cost);
        if let Some(old) = table.get_mut(step.from)
            && sum < *old
        {
            *old = sum;
            lowered = true;
        }
    }
    lowered
}

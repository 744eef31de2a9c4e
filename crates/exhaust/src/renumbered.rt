// Floors that differ only in their places' numbers.
use crate::arrangement::{Arrangement, arrangements};
use crate::small_floor::{CONNECTIONS, connection_bit, floor_count};
use floor::Place;
use std::alloc::{AllocError, Global};

// Floors of so many places, by their numbers; and how many floors are one of these, renumbered.
#[derive(Drop)]
pub struct Taken {
    pub numbers: Vec<usize>,
    pub covered: usize,
}

impl Taken {
    // All floors.
    pub fn all(heap: Global, places: u16) -> Result<Taken, AllocError> {
        let covered = floor_count(places);
        let numbers = (0..covered).collect(heap)?;
        Ok(Taken { numbers, covered })
    }

    // The first of those that differ only in their places' numbers.
    pub fn first_of_each(heap: Global, places: u16) -> Result<Taken, AllocError> {
        let orders = arrangements(heap, places, places)?;
        let mut covered = vec![in heap; false; floor_count(places)]?;
        let mut numbers = Vec::new(heap);
        for number in 0..floor_count(places) {
            if covered.get(number) == Some(&false) {
                numbers.push(number)?;
                cover(&mut covered, number, &orders);
            }
        }
        let covered = covered.iter().filter(|covered| **covered).count();
        Ok(Taken { numbers, covered })
    }
}

// Marks the floor, renumbered in each order.
fn cover(covered: &mut [bool], number: usize, orders: &[Arrangement]) {
    for order in orders {
        if let Some(mark) = covered.get_mut(renumbered(number, order)) {
            *mark = true;
        }
    }
}

// The floor in which place number i has the number that stands at i in the order.
fn renumbered(number: usize, order: &[Place]) -> usize {
    let mut other = 0;
    for &(p, q) in &CONNECTIONS {
        if number & connection_bit(p, q) != 0 {
            other |= connection_bit(number_in(order, p), number_in(order, q));
        }
    }
    other
}

fn number_in(order: &[Place], p: u16) -> u16 {
    order.get(usize::from(p)).map_or(p, |place| place.0)
}

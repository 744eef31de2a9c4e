// Floors of up to six places, one for each set of connections.
use crate::arrangement::arrangements;
use floor::Place;
use maps::{Connection, ListMap};
use std::alloc::{AllocError, Global};

// The connections that six places can have. Those of fewer places stand first.
const CONNECTIONS: [(u16, u16); 15] = [
    (0, 1),
    (0, 2),
    (1, 2),
    (0, 3),
    (1, 3),
    (2, 3),
    (0, 4),
    (1, 4),
    (2, 4),
    (3, 4),
    (0, 5),
    (1, 5),
    (2, 5),
    (3, 5),
    (4, 5),
];

// A floor: a connection is there where its bit of the number is set.
#[derive(Clone, Copy)]
pub struct SmallFloor {
    pub places: u16,
    pub number: usize,
    // for each place whether each is its neighbour
    near: [[bool; 6]; 6],
}

impl SmallFloor {
    pub fn new(places: u16, number: usize) -> SmallFloor {
        let mut near = [[false; 6]; 6];
        for (p, row) in near.iter_mut().enumerate() {
            *row = row_of(number, p as u16);
        }
        SmallFloor {
            places,
            number,
            near,
        }
    }

    pub fn has(&self, p: Place) -> bool {
        p.0 < self.places
    }

    // Whether the two places are joined.
    pub fn joins(&self, p: Place, q: Place) -> bool {
        match self.near.get(usize::from(p)) {
            Some(row) => row.get(usize::from(q)) == Some(&true),
            None => false,
        }
    }

    // How many neighbours the place has.
    pub fn degree(&self, p: Place) -> usize {
        (0..self.places)
            .filter(|q| self.joins(p, Place(*q)))
            .count()
    }

    // The floor as a map that a rule can be asked about.
    pub fn list_map(&self, heap: Global) -> anyhow::Result<ListMap> {
        let mut map = ListMap::with_room(heap)?;
        map.found(self.places)?;
        for &(p, q) in &CONNECTIONS {
            if self.joins(Place(p), Place(q)) {
                map.join(Connection {
                    first: Place(p),
                    second: Place(q),
                })?;
            }
        }
        Ok(map)
    }
}

fn row_of(number: usize, p: u16) -> [bool; 6] {
    let mut row = [false; 6];
    for (q, near) in row.iter_mut().enumerate() {
        *near = number & connection_bit(p, q as u16) != 0;
    }
    row
}

// The bit of the connection between two places, and 0 if they are one.
fn connection_bit(p: u16, q: u16) -> usize {
    let ends = (p.min(q), p.max(q));
    match CONNECTIONS.iter().position(|pair| *pair == ends) {
        Some(i) => 1 << i,
        None => 0,
    }
}

// How many floors of so many places there are.
pub fn floor_count(places: u16) -> usize {
    match places {
        0 | 1 => 1,
        2 => 2,
        3 => 8,
        4 => 64,
        5 => 1024,
        _ => 32768,
    }
}

// The first of those floors that differ only in their places' numbers.
pub fn first_of_each(heap: Global, places: u16) -> Result<Vec<SmallFloor>, AllocError> {
    let orders = arrangements(heap, places, places)?;
    let mut floors = Vec::new(heap);
    for number in 0..floor_count(places) {
        if orders
            .iter()
            .all(|order| number <= renumbered(number, order))
        {
            floors.push(SmallFloor::new(places, number))?;
        }
    }
    Ok(floors)
}

// The floor in which place number i has the number that stands at i in the order.
fn renumbered(number: usize, order: &[Place]) -> usize {
    let mut other = 0;
    for &(p, q) in &CONNECTIONS {
        if number & connection_bit(p, q) != 0 {
            other |= connection_bit(number_in(order, p), number_in(order, q));
        }
    }
    other
}

fn number_in(order: &[Place], p: u16) -> u16 {
    order.get(usize::from(p)).map_or(p, |place| place.0)
}

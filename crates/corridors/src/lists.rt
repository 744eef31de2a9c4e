// Lists of operands: carts, places, lengths and ticks.
use floor::{Cart, Place, Tick};
use std::alloc::{AllocError, Global};

// Each of two carts, and of one that is not there, with each.
pub const ALL_CARTS: [(Cart, Cart); 9] = [
    (Cart(0), Cart(0)),
    (Cart(0), Cart(1)),
    (Cart(0), Cart(2)),
    (Cart(1), Cart(0)),
    (Cart(1), Cart(1)),
    (Cart(1), Cart(2)),
    (Cart(2), Cart(0)),
    (Cart(2), Cart(1)),
    (Cart(2), Cart(2)),
];

pub const IN_ORDER: [(Cart, Cart); 1] = [(Cart(0), Cart(1))];

pub const IN_BOTH_ORDERS: [(Cart, Cart); 2] = [(Cart(0), Cart(1)), (Cart(1), Cart(0))];

// No corridor on six places is longer than five.
pub const LENGTHS: [u8; 9] = [0, 1, 2, 3, 4, 5, 6, 7, 64];

// Ticks up to 11, and those on both sides of the last that a split may name. Without bans a cart on six places can stand
// at tick 5 wherever it ever can. So for a corridor of length k a tick above k + 6 is answered as k + 6 is: with 1 that is
// tick 7, and with 5, the longest on six places, tick 11.
const TICKS: [Tick; 14] = [
    Tick(0),
    Tick(1),
    Tick(2),
    Tick(3),
    Tick(4),
    Tick(5),
    Tick(6),
    Tick(7),
    Tick(8),
    Tick(9),
    Tick(10),
    Tick(11),
    Tick(4000),
    Tick(4001),
];

const FEW_TICKS: [Tick; 3] = [Tick(0), Tick(2), Tick(4001)];

// Those that are tried with all other operands: few on floors of five and six places.
pub fn ticks_on(places: u16) -> &'static [Tick] {
    if places < 5 { &TICKS } else { &FEW_TICKS }
}

// Those that are tried for a corridor of this length.
pub fn ticks_for(length: u8) -> &'static [Tick] {
    if length == 1 {
        &TICKS[..8]
    } else {
        &TICKS[..12]
    }
}

// Those up to the steps of the longest walks.
pub fn ticks_of_walks() -> &'static [Tick] {
    &TICKS[..9]
}

// Each place of a floor, and one off it, with each.
pub fn all_places(heap: Global, places: u16) -> Result<Vec<(Place, Place)>, AllocError> {
    let mut pairs = Vec::new(heap);
    for p in 0..=places {
        for q in 0..=places {
            pairs.push((Place(p), Place(q)))?;
        }
    }
    Ok(pairs)
}

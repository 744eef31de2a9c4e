// Up to three carts, and sets of them.
use floor::Cart;

pub const CARTS: [Cart; 3] = [Cart(0), Cart(1), Cart(2)];

// For each cart its bit in a set.
pub const BITS: [u8; 3] = [1, 2, 4];

// The set of the carts below a number.
pub fn carts_below(count: usize) -> u8 {
    match count {
        0 => 0,
        1 => 1,
        2 => 3,
        _ => 7,
    }
}

// How many carts are in the set.
pub fn cart_count(set: u8) -> u16 {
    u16::from(set & 1 != 0) + u16::from(set & 2 != 0) + u16::from(set & 4 != 0)
}

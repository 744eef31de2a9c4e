// What the operands of `K` name.
ghost use Rattle.std.specs.Prelude.{◌≡◌};
ghost use Rattle.splits.specs.CorridorTests.{passage};

use crate::operands::{byte_in, cart_in, place_in, tick_in};
use floor::{Cart, Place, Tick};

// Cart `a` goes through the corridor of length `k` that begins with `p` and `q` by tick `m`, and cart `b` the other way
// by tick `n`.
#[derive(Clone, Copy)]
pub struct Passage {
    pub a: Cart,
    pub b: Cart,
    pub p: Place,
    pub q: Place,
    pub k: u8,
    pub m: Tick,
    pub n: Tick,
}

// A cart on its way through, from the first place to the last, which it enters from the near one, by the tick; the
// other cart comes the other way.
#[derive(Clone, Copy)]
pub struct CartPassage {
    pub cart: Cart,
    pub other: Cart,
    pub first: Place,
    pub near: Place,
    pub last: Place,
    pub steps: u8,
    pub tick: Tick,
}

pub fn read(operands: &[u8]) -> Passage
    ensures { result ≡ passage operands.now }
{
    Passage {
        a: cart_in(operands, 0),
        b: cart_in(operands, 1),
        p: place_in(operands, 2),
        q: place_in(operands, 4),
        k: byte_in(operands, 6),
        m: tick_in(operands, 7),
        n: tick_in(operands, 9),
    }
}

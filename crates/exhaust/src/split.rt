// Splits by the letters V, E and T: their operands and their sides, written down from the rules.
use floor::{Cart, Place, Tick};
use motion::Ban;

#[derive(Clone, Copy)]
pub enum Split {
    // two carts at a place at a tick
    Vertex {
        a: Cart,
        b: Cart,
        place: Place,
        tick: Tick,
    },
    // two carts that swap places, arriving at a tick
    Edge {
        a: Cart,
        b: Cart,
        from: Place,
        to: Place,
        tick: Tick,
    },
    // a cart's length
    Target {
        cart: Cart,
        tick: Tick,
    },
}

impl Split {
    pub fn letter(self) -> u8 {
        match self {
            Split::Vertex { .. } => b'V',
            Split::Edge { .. } => b'E',
            Split::Target { .. } => b'T',
        }
    }

    // The bytes behind the letter. A check reads no more of them than the letter has.
    pub fn operands(self) -> [u8; 8] {
        match self {
            Split::Vertex { a, b, place, tick } => {
                let [p, q] = place.0.to_be_bytes();
                let [t, u] = tick.0.to_be_bytes();
                [a.0, b.0, p, q, t, u, 0, 0]
            }
            Split::Edge {
                a,
                b,
                from,
                to,
                tick,
            } => {
                let [p, q] = from.0.to_be_bytes();
                let [r, s] = to.0.to_be_bytes();
                let [t, u] = tick.0.to_be_bytes();
                [a.0, b.0, p, q, r, s, t, u]
            }
            Split::Target { cart, tick } => {
                let [t, u] = tick.0.to_be_bytes();
                [cart.0, t, u, 0, 0, 0, 0, 0]
            }
        }
    }

    // The left ban and the right ban.
    pub fn sides(self) -> [Ban; 2] {
        match self {
            Split::Vertex { a, b, place, tick } => [stand(a, place, tick), stand(b, place, tick)],
            Split::Edge {
                a,
                b,
                from,
                to,
                tick,
            } => [go(a, from, to, tick), go(b, to, from, tick)],
            Split::Target { cart, tick } => [Ban::Late { cart, tick }, Ban::By { cart, tick }],
        }
    }
}

fn stand(cart: Cart, place: Place, tick: Tick) -> Ban {
    Ban::Stand {
        cart,
        place,
        first: tick,
        last: tick,
    }
}

fn go(cart: Cart, from: Place, to: Place, tick: Tick) -> Ban {
    Ban::Move {
        cart,
        from,
        to,
        first: tick,
        last: tick,
    }
}

// Splits by our own letters, with their operands by name.
use crate::corridors::Corridor;
use floor::{Cart, Place, Tick};
use splits::{byte_in, cart_in};
use std::fmt;
use std::fmt::{Display, Formatter};

#[derive(Clone, Copy)]
pub enum Letter {
    Vertex {
        a: Cart,
        b: Cart,
        p: Place,
        t: Tick,
    },
    Edge {
        a: Cart,
        b: Cart,
        p: Place,
        q: Place,
        t: Tick,
    },
    Target {
        a: Cart,
        t: Tick,
    },
    Corridor(Corridor),
}

impl Letter {
    // None for a letter that is none of ours.
    pub fn read(letter: u8, operands: &[u8]) -> Option<Letter> {
        let a = cart_in(operands, 0);
        let b = cart_in(operands, 1);
        let p = Place(word(operands, 2));
        let q = Place(word(operands, 4));
        match letter {
            b'V' => {
                let t = Tick(word(operands, 4));
                Some(Letter::Vertex { a, b, p, t })
            }
            b'E' => {
                let t = Tick(word(operands, 6));
                Some(Letter::Edge { a, b, p, q, t })
            }
            b'T' => {
                let t = Tick(word(operands, 1));
                Some(Letter::Target { a, t })
            }
            b'K' => Some(Letter::Corridor(Corridor {
                a,
                b,
                p,
                q,
                k: byte_in(operands, 6),
                m: Tick(word(operands, 7)),
                n: Tick(word(operands, 9)),
            })),
            _ => None,
        }
    }
}

impl Display for Letter {
    fn fmt<W: fmt::Write>(&self, f: &mut Formatter<W>) -> fmt::Result {
        match *self {
            Letter::Vertex { a, b, p, t } => write!(f, "carts {a} and {b}, place {p}, tick {t}"),
            Letter::Edge { a, b, p, q, t } => {
                write!(f, "carts {a} and {b}, places {p} and {q}, tick {t}")
            }
            Letter::Target { a, t } => write!(f, "cart {a}, tick {t}"),
            Letter::Corridor(
                Corridor {
                    a,
                    b,
                    p,
                    q,
                    k,
                    m,
                    n,
                },
            ) => write!(
                f,
                "carts {a} and {b}, places {p} and {q}, length {k}, ticks {m} and {n}"
            ),
        }
    }
}

// A place or a tick among the operands, by its number.
fn word(bytes: &[u8], i: usize) -> u16 {
    u16::from_be_bytes([byte_in(bytes, i), byte_in(bytes, i.saturating_add(1))])
}

// The operands of `K`, and lists of them.
use floor::{Cart, Place, Tick};

#[derive(Clone, Copy)]
pub struct Operands {
    pub a: Cart,
    pub b: Cart,
    pub p: Place,
    pub q: Place,
    pub k: u8,
    pub m: Tick,
    pub n: Tick,
}

impl Operands {
    // The bytes behind the letter.
    pub fn bytes(self) -> [u8; 11] {
        let [p, q] = self.p.0.to_be_bytes();
        let [r, s] = self.q.0.to_be_bytes();
        let [t, u] = self.m.0.to_be_bytes();
        let [v, w] = self.n.0.to_be_bytes();
        [self.a.0, self.b.0, p, q, r, s, self.k, t, u, v, w]
    }
}

// Operands that are gone through: each of these with each of the others.
#[derive(Clone, Copy)]
pub struct Ranges<'a> {
    // a and b
    pub carts: &'a [(Cart, Cart)],
    // p and q
    pub places: &'a [(Place, Place)],
    // k
    pub lengths: &'a [u8],
    // m, and n
    pub ticks: &'a [Tick],
}

impl Ranges<'_> {
    // How many there are.
    pub fn count(&self) -> usize {
        let carts_and_places = self.carts.len().saturating_mul(self.places.len());
        let ticks = self.ticks.len().saturating_mul(self.ticks.len());
        carts_and_places
            .saturating_mul(self.lengths.len())
            .saturating_mul(ticks)
    }

    // The operands of a number, which are digits of it, if the number is below the count.
    pub fn operands(&self, number: usize) -> Option<Operands> {
        let mut digits = Digits { rest: number };
        let (a, b) = *self.carts.get(digits.below(self.carts.len()))?;
        let (p, q) = *self.places.get(digits.below(self.places.len()))?;
        let k = *self.lengths.get(digits.below(self.lengths.len()))?;
        let m = *self.ticks.get(digits.below(self.ticks.len()))?;
        let n = *self.ticks.get(digits.below(self.ticks.len()))?;
        Some(Operands {
            a,
            b,
            p,
            q,
            k,
            m,
            n,
        })
    }
}

// A number, from which digits are taken.
#[derive(Drop)]
struct Digits {
    rest: usize,
}

impl Digits {
    // The last digit, below the count.
    fn below(&mut self, count: usize) -> usize {
        let count = count.max(1);
        let digit = self.rest % count;
        self.rest /= count;
        digit
    }
}

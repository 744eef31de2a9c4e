// The numbers among the operands of a letter.
ghost use Rattle.std.specs.Prelude.{◌≡◌};
ghost use Rattle.splits.specs.Operands.{byte, word, cart_in, place_in, tick_in, of_width};

use floor::{Cart, Place, Tick};

pub fn byte_in(operands: &[u8], i: usize) -> u8
    ensures { result ≡ byte operands.now i }
{
    operands.get(i).copied().unwrap_or(0)
}

fn word(operands: &[u8], i: usize) -> u16
    ensures { result ≡ word operands.now i }
{
    u16::from_be_bytes([byte_in(operands, i), byte_in(operands, i.saturating_add(1))])
}

pub fn cart_in(operands: &[u8], i: usize) -> Cart
    ensures { result ≡ cart_in operands.now i }
{
    Cart(byte_in(operands, i))
}

pub fn place_in(operands: &[u8], i: usize) -> Place
    ensures { result ≡ place_in operands.now i }
{
    Place(word(operands, i))
}

pub fn tick_in(operands: &[u8], i: usize) -> Tick
    ensures { result ≡ tick_in operands.now i }
{
    Tick(word(operands, i))
}

// Operands of `n` bytes, where there are as many.
pub fn of_width(n: usize, bytes: &[u8]) -> Option<usize>
    ensures { result ≡ of_width n bytes.now }
{
    (n <= bytes.len()).then_some(n)
}

// What every letter asks of its carts, places and ticks.
ghost use Rattle.std.specs.Prelude.{◌≡◌, length, not, nat_lt};
ghost use Rattle.floor.specs.Checks.{refuse};
ghost use Rattle.splits.specs.Conditions.{is_two, is_place, is_in_time};
ghost use Rattle.splits.specs.declared.refusal.SplitRefusal.TheVariants.{NoCart, NoPlace, BadTick};

use crate::refusal::SplitRefusal;
use floor::{Cart, FloorMap, Place, Tick};
use motion::Trip;

const LAST_TICK: Tick = Tick(4000);

// Refused where the condition fails.
pub fn ensure(holds: bool, refusal: SplitRefusal) -> Result<(), SplitRefusal>
    ensures { result ≡ refuse (not holds) refusal }
{
    if holds { Ok(()) } else { Err(refusal) }
}

// A test of carts and one of places: a test of numbers below a bound would take the one for the other.
pub fn check_cart(trips: &[Trip], cart: Cart) -> Result<(), SplitRefusal>
    ensures { result ≡ refuse (not (nat_lt cart.0 (length trips.now))) NoCart }
{
    ensure(usize::from(cart) < trips.len(), SplitRefusal::NoCart)
}

pub fn check_two_carts(trips: &[Trip], a: Cart, b: Cart) -> Result<(), SplitRefusal>
    ensures { result ≡ refuse (not (is_two trips.now a b)) NoCart }
{
    check_cart(trips, a)?;
    check_cart(trips, b)?;
    ensure(a != b, SplitRefusal::NoCart)
}

pub fn check_place<M: FloorMap>(map: &M, p: Place) -> Result<(), SplitRefusal>
    ensures { result ≡ refuse (not (is_place (M.FloorMap.floor map.now) p)) NoPlace }
{
    ensure(usize::from(p) < map.places(), SplitRefusal::NoPlace)
}

pub fn check_tick(t: Tick) -> Result<(), SplitRefusal>
    ensures { result ≡ refuse (not (is_in_time t)) BadTick }
{
    ensure(t <= LAST_TICK, SplitRefusal::BadTick)
}

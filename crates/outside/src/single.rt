ghost use Rattle.std.specs.Prelude.{◌≡◌, ◌<◌, ◌≤◌, IfErr, IfOk, length, slice_index_or};
ghost use Rattle.motion.specs.Routes.{nowhere};
ghost use Rattle.outside.specs.Single.{doubling, single_rules};
ghost use Rattle.outside.specs.SingleLemmas.{single_lawful};
ghost use Rattle.splits.specs.Rules.{LawfulForAll, LawfulRules};
ghost use Rattle.splits.specs.declared.refusal.SplitRefusal.TheVariants.{NoCart};

use floor::{Cart, FloorMap, Place, Tick};
use motion::{Ban, Trip};
use search::{Branch, Workspace};
use splits::{
    SplitRefusal, SplitRule, byte_in, cart_in, check_place, check_tick, ensure, of_width,
};

// Letter `S` cart(1) place(1) tick(1): a cart is not at its target and at another place at one tick.
#[derive(Clone, Copy)]
pub struct Single;

// A cart, a place and a tick.
#[derive(Clone, Copy)]
pub struct Doubling {
    pub cart: Cart,
    pub place: Place,
    pub tick: Tick,
}

// It is lawful in a check, where every target is on the floor, and not for carts whose targets are elsewhere.
pub fn single_rule() -> Single
    ensures means_its_rules { ⟦<Single as SplitRule>⟧.rules result ≡ single_rules }
    ensures lawful_in_a_check { LawfulRules single_rules }
    ensures not_lawful_for_all_carts { LawfulForAll single_rules → ⊥ }
{
    Single
}

fn read(operands: &[u8]) -> Doubling
    ensures { result ≡ doubling operands.now }
{
    Doubling {
        cart: cart_in(operands, 0),
        place: Place(u16::from(byte_in(operands, 1))),
        tick: Tick(u16::from(byte_in(operands, 2))),
    }
}

// The trip of the cart.
fn trip_of(trips: &[Trip], cart: Cart) -> Result<Trip, SplitRefusal>
    ensures found { IfOk result (λ trip. (cart.0 < length trips.now) × (trip ≡ slice_index_or trips.now cart.0 nowhere)) }
    ensures refused { IfErr result (λ e. (length trips.now ≤ cart.0) × (e ≡ NoCart)) }
{
    trips
        .get(usize::from(cart))
        .copied()
        .ok_or(SplitRefusal::NoCart)
}

impl SplitRule for Single {
    ghost rules = { λ _. single_rules };

    ghost lawful = { λ _. single_lawful };

    fn knows(&self, letter: u8) -> bool {
        letter == b'S'
    }

    fn width(&self, letter: u8, bytes: &[u8]) -> Option<usize> {
        of_width(3, bytes)
    }

    fn sides<M: FloorMap>(
        &self,
        work: &mut Workspace,
        branch: &Branch<M>,
        letter: u8,
        operands: &[u8],
    ) -> Result<(Ban, Ban), SplitRefusal> {
        let d = read(operands);
        let target = trip_of(branch.trips, d.cart)?.target;
        check_place(branch.map, d.place)?;
        check_tick(d.tick)?;
        ensure(d.place != target, SplitRefusal::Unlawful)?;
        Ok((
            Ban::stand_at(d.cart, target, d.tick),
            Ban::stand_at(d.cart, d.place, d.tick),
        ))
    }
}

ghost use Rattle.std.specs.Prelude.{◌≡◌};
ghost use Rattle.splits.specs.Target.{arrival, target_rules};
ghost use Rattle.splits.specs.VertexEdgeTargetLemmas.{target_lawful};

use crate::conditions::{check_cart, check_tick};
use crate::operands::{cart_in, of_width, tick_in};
use crate::refusal::SplitRefusal;
use crate::rule::SplitRule;
use floor::{Cart, FloorMap, Tick};
use motion::Ban;
use search::{Branch, Workspace};

// Letter `T`: a cart's length is more than a tick, or at most that and no other cart is at its target from then on.
#[derive(Clone, Copy)]
pub struct Target;

// A cart, and the tick that its length is compared with.
#[derive(Clone, Copy)]
pub struct Arrival {
    pub cart: Cart,
    pub tick: Tick,
}

fn read(operands: &[u8]) -> Arrival
    ensures { result ≡ arrival operands.now }
{
    Arrival {
        cart: cart_in(operands, 0),
        tick: tick_in(operands, 1),
    }
}

impl SplitRule for Target {
    ghost rules = { λ _. target_rules };

    ghost lawful = { λ _. target_lawful };

    fn knows(&self, letter: u8) -> bool {
        letter == b'T'
    }

    fn width(&self, letter: u8, bytes: &[u8]) -> Option<usize> {
        of_width(3, bytes)
    }

    fn sides<M: FloorMap>(
        &self,
        work: &mut Workspace,
        branch: &Branch<M>,
        letter: u8,
        operands: &[u8],
    ) -> Result<(Ban, Ban), SplitRefusal> {
        let Arrival { cart, tick } = read(operands);
        check_cart(branch.trips, cart)?;
        check_tick(tick)?;
        Ok((Ban::Late { cart, tick }, Ban::By { cart, tick }))
    }
}

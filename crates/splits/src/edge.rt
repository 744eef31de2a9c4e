ghost use Rattle.std.specs.Prelude.{◌≡◌, ◌&&◌, not, nat_le};
ghost use Rattle.floor.specs.Checks.{refuse};
ghost use Rattle.splits.specs.Conditions.{is_in_time};
ghost use Rattle.splits.specs.Edge.{crossing, edge_rules};
ghost use Rattle.splits.specs.VertexEdgeTargetLemmas.{edge_lawful};
ghost use Rattle.splits.specs.declared.refusal.SplitRefusal.TheVariants.{BadTick};

use crate::conditions::{check_place, check_tick, check_two_carts, ensure};
use crate::operands::{cart_in, of_width, place_in, tick_in};
use crate::refusal::SplitRefusal;
use crate::rule::SplitRule;
use floor::{Cart, FloorMap, Place, Tick, is_joined};
use motion::Ban;
use search::{Branch, Workspace};

// Letter `E`: two carts do not change places in one step.
#[derive(Clone, Copy)]
pub struct Edge;

// Cart `a` from one place to the other, and cart `b` the other way, both arriving at the tick.
#[derive(Clone, Copy)]
pub struct Crossing {
    pub a: Cart,
    pub b: Cart,
    pub from: Place,
    pub to: Place,
    pub tick: Tick,
}

fn read(operands: &[u8]) -> Crossing
    ensures { result ≡ crossing operands.now }
{
    Crossing {
        a: cart_in(operands, 0),
        b: cart_in(operands, 1),
        from: place_in(operands, 2),
        to: place_in(operands, 4),
        tick: tick_in(operands, 6),
    }
}

// A move arrives at tick 1 at the earliest.
fn check_arrival(tick: Tick) -> Result<(), SplitRefusal>
    ensures { result ≡ refuse (not (nat_le 1 tick.0 && is_in_time tick)) BadTick }
{
    ensure(tick > Tick(0), SplitRefusal::BadTick)?;
    check_tick(tick)
}

impl SplitRule for Edge {
    ghost rules = { λ _. edge_rules };

    ghost lawful = { λ _. edge_lawful };

    fn knows(&self, letter: u8) -> bool {
        letter == b'E'
    }

    fn width(&self, letter: u8, bytes: &[u8]) -> Option<usize> {
        of_width(8, bytes)
    }

    fn sides<M: FloorMap>(
        &self,
        work: &mut Workspace,
        branch: &Branch<M>,
        letter: u8,
        operands: &[u8],
    ) -> Result<(Ban, Ban), SplitRefusal> {
        let e = read(operands);
        check_two_carts(branch.trips, e.a, e.b)?;
        check_place(branch.map, e.from)?;
        check_place(branch.map, e.to)?;
        check_arrival(e.tick)?;
        ensure(is_joined(branch.map, e.from, e.to), SplitRefusal::Unlawful)?;
        Ok((
            Ban::move_at(e.a, e.from, e.to, e.tick),
            Ban::move_at(e.b, e.to, e.from, e.tick),
        ))
    }
}

ghost use Rattle.std.specs.Prelude.{◌≡◌};
ghost use Rattle.splits.specs.Vertex.{meeting, vertex_rules};
ghost use Rattle.splits.specs.VertexEdgeTargetLemmas.{vertex_lawful};

use crate::conditions::{check_place, check_tick, check_two_carts};
use crate::operands::{cart_in, of_width, place_in, tick_in};
use crate::refusal::SplitRefusal;
use crate::rule::SplitRule;
use floor::{Cart, FloorMap, Place, Tick};
use motion::Ban;
use search::{Branch, Workspace};

// Letter `V`: two carts are not at one place at one tick.
#[derive(Clone, Copy)]
pub struct Vertex;

// Two carts at a place at a tick.
#[derive(Clone, Copy)]
pub struct Meeting {
    pub a: Cart,
    pub b: Cart,
    pub place: Place,
    pub tick: Tick,
}

fn read(operands: &[u8]) -> Meeting
    ensures { result ≡ meeting operands.now }
{
    Meeting {
        a: cart_in(operands, 0),
        b: cart_in(operands, 1),
        place: place_in(operands, 2),
        tick: tick_in(operands, 4),
    }
}

impl SplitRule for Vertex {
    ghost rules = { λ _. vertex_rules };

    ghost lawful = { λ _. vertex_lawful };

    fn knows(&self, letter: u8) -> bool {
        letter == b'V'
    }

    fn width(&self, letter: u8, bytes: &[u8]) -> Option<usize> {
        of_width(6, bytes)
    }

    fn sides<M: FloorMap>(
        &self,
        work: &mut Workspace,
        branch: &Branch<M>,
        letter: u8,
        operands: &[u8],
    ) -> Result<(Ban, Ban), SplitRefusal> {
        let v = read(operands);
        check_two_carts(branch.trips, v.a, v.b)?;
        check_place(branch.map, v.place)?;
        check_tick(v.tick)?;
        Ok((
            Ban::stand_at(v.a, v.place, v.tick),
            Ban::stand_at(v.b, v.place, v.tick),
        ))
    }
}

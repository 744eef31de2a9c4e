ghost use Rattle.splits.specs.CorridorTests.{corridor_rules};
ghost use Rattle.splits.specs.CorridorLemmas.{corridor_lawful};

use crate::conditions::{check_place, check_tick, check_two_carts, ensure};
use crate::operands::of_width;
use crate::refusal::SplitRefusal;
use crate::rule::SplitRule;
use floor::FloorMap;
use motion::Ban;
use places::Chain;
use search::{Branch, Workspace};

mod passage;
mod passing;
mod places;

// Letter `K`: two carts do not go through one corridor at one time, one each way.
#[derive(Clone, Copy)]
pub struct Corridor;

impl SplitRule for Corridor {
    ghost rules = { λ _. corridor_rules };

    ghost lawful = { λ _. corridor_lawful };

    fn knows(&self, letter: u8) -> bool {
        letter == b'K'
    }

    fn width(&self, letter: u8, bytes: &[u8]) -> Option<usize> {
        of_width(11, bytes)
    }

    fn sides<M: FloorMap>(
        &self,
        work: &mut Workspace,
        branch: &Branch<M>,
        letter: u8,
        operands: &[u8],
    ) -> Result<(Ban, Ban), SplitRefusal> {
        let o = passage::read(operands);
        check_two_carts(branch.trips, o.a, o.b)?;
        check_place(branch.map, o.p)?;
        check_place(branch.map, o.q)?;
        check_tick(o.m)?;
        check_tick(o.n)?;
        let chain = Chain::led(branch.map, o).ok_or(SplitRefusal::Unlawful)?;
        ensure(chain.is_corridor_for(work, branch), SplitRefusal::Unlawful)?;
        Ok(chain.bans())
    }
}

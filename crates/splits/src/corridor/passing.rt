// Whether two carts can only go through a corridor, one each way.
ghost use Rattle.std.specs.Prelude.{◌≡◌, ◌≤◌};
ghost use Rattle.floor.specs.Numbers.{numbers};
ghost use Rattle.splits.specs.CorridorTests.{last_move_ban, listed_at, is_passing, are_passing};

use crate::corridor::passage::CartPassage;
use crate::corridor::places::Chain;
use floor::{FloorMap, Tick};
use motion::Ban;
use search::{Branch, Workspace};

// The cart does not move into its last place from the near one up to the tick.
fn last_move_ban(w: CartPassage) -> Ban
    ensures { result ≡ last_move_ban w }
{
    Ban::Move {
        cart: w.cart,
        from: w.near,
        to: w.last,
        first: Tick(0),
        last: w.tick,
    }
}

// Whether the cart can only go through, and the other not be through before it.
fn is_passing<M: FloorMap>(work: &mut Workspace, branch: &Branch<M>, w: CartPassage) -> bool
    requires { w.tick.0 ≤ 4000 }
    ensures { result ≡ is_passing (M.FloorMap.floor branch.now.map.now) branch.now.trips.now branch.now.bans.now w }
{
    let by = Tick(w.tick.0 + 1);
    let early = Tick(w.tick.0.saturating_sub(u16::from(w.steps)));
    !branch.stands_before(work, Some(last_move_ban(w)), w.cart, w.last, by)
        && !branch.stands_before(work, None, w.other, w.first, early)
}

impl Chain {
    // Whether each cart can only go through, and the other not be through before it.
    pub fn are_passing<M: FloorMap>(&self, work: &mut Workspace, branch: &Branch<M>) -> bool
        ensures { result ≡ are_passing (M.FloorMap.floor branch.now.map.now) branch.now.trips.now branch.now.bans.now self.now.passage (listed_at (numbers self.now.places)) }
    {
        is_passing(work, branch, self.forth()) && is_passing(work, branch, self.back())
    }
}

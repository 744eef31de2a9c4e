// Whether a cart can have a length: it comes to its target then, and may stay there.
ghost use Rattle.std.specs.Prelude.{◌≡◌, ◌&&◌, ◌==◌};
ghost use Rattle.motion.specs.Routes.{start_of, target_of};
ghost use Rattle.search.specs.BanLists.{all_bans};
ghost use Rattle.search.specs.Least.{can_end, enters_target};
ghost use Rattle.search.specs.Workspaces.{marks_in};

use crate::cart_search::CartSearch;
use crate::rows::marks;
use crate::trips::trip_of;
use crate::workspace::Workspace;
use floor::{FloorMap, Tick, neighbours_of};
use motion::Length;

impl<'a, M: FloorMap> CartSearch<'a, M> {
    // Whether the cart can enter its target at tick `t` from a neighbour that the row marks.
    fn enters_target(&self, t: Tick, row: &[bool]) -> bool
        ensures { result ≡ enters_target (M.floor self.now.map.now) self.now.trips.now (all_bans self.now.bans) self.now.cart.0 t.0 row.now }
    {
        let target = trip_of(self.trips, self.cart).target;
        neighbours_of(self.map, target).any(|p| marks(row, p) && self.can_go(t, p, target))
    }

    // Whether the cart may stay where it starts, at its target.
    pub fn starts_at_target(&self) -> bool
        ensures { result ≡ (can_end self.now.trips.now (all_bans self.now.bans) self.now.cart.0 0 && start_of self.now.trips.now self.now.cart.0 == target_of self.now.trips.now self.now.cart.0) }
    {
        let trip = trip_of(self.trips, self.cart);
        self.can_end(Length(Tick(0))) && trip.start == trip.target
    }

    // Whether the cart can have the length, where the row is that of the tick before.
    pub fn ends_at(&self, work: &Workspace, n: Length) -> bool
        ensures { result ≡ (can_end self.now.trips.now (all_bans self.now.bans) self.now.cart.0 n.0.0 && enters_target (M.floor self.now.map.now) self.now.trips.now (all_bans self.now.bans) self.now.cart.0 n.0.0 (marks_in (M.floor self.now.map.now).count work.now)) }
    {
        self.can_end(n) && self.enters_target(n.0, &work.row[0..self.map.places()])
    }
}

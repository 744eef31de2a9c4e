// The row of a workspace, from tick to tick.
ghost use Rattle.std.specs.Prelude.{◌≡◌};
ghost use Rattle.search.specs.BanLists.{all_bans};
ghost use Rattle.search.specs.Rows.{marked, first_row, next_row, row_at};
ghost use Rattle.search.specs.Workspaces.{marks_in};

use crate::cart_search::CartSearch;
use crate::rows::marks;
use crate::workspace::Workspace;
use floor::{FloorMap, Place, Tick};
use std::mem::swap;

impl<'a, M: FloorMap> CartSearch<'a, M> {
    // Makes the row that of tick 0.
    pub fn start(&self, work: &mut Workspace)
        ensures { marks_in (M.floor self.now.map.now).count work.new ≡ first_row self.now.trips.now (all_bans self.now.bans) self.now.cart.0 (M.floor self.now.map.now).count }
    {
        let n = self.map.places();
        self.begin(&mut work.row[0..n]);
    }

    // Makes of the row that of the next tick, `t`.
    pub fn advance(&self, work: &mut Workspace, t: Tick)
        ensures { marks_in (M.floor self.now.map.now).count work.new ≡ next_row (M.floor self.now.map.now) self.now.trips.now (all_bans self.now.bans) self.now.cart.0 t.0 (marks_in (M.floor self.now.map.now).count work.old) }
    {
        let n = self.map.places();
        self.step(t, &work.row[0..n], &mut work.other[0..n]);
        swap(&mut work.row, &mut work.other);
    }

    // Makes the row that of the tick: a loop over ticks, since each row is written from the one before.
    pub fn run_to(&self, work: &mut Workspace, tick: Tick)
        ensures { marks_in (M.floor self.now.map.now).count work.new ≡ row_at (M.floor self.now.map.now) self.now.trips.now (all_bans self.now.bans) self.now.cart.0 tick.0 }
    {
        self.start(work);
        for u in 0..tick.0 {
            self.advance(work, Tick(u + 1));
        }
    }

    // Whether the row marks the place.
    pub fn marks(&self, work: &Workspace, place: Place) -> bool
        ensures { result ≡ marked (marks_in (M.floor self.now.map.now).count work.now) place.0 }
    {
        marks(&work.row[0..self.map.places()], place)
    }
}

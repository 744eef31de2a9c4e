// The least length of a cart below a limit.
ghost use Rattle.std.specs.Prelude.{◌≡◌};
ghost use Rattle.std.specs.Option.{option_map};
ghost use Rattle.search.specs.BanLists.{all_bans};
ghost use Rattle.search.specs.Least.{least_below};

use crate::cart_search::CartSearch;
use crate::workspace::Workspace;
use floor::{FloorMap, Tick};
use motion::Length;

impl<'a, M: FloorMap> CartSearch<'a, M> {
    // The least length of the cart, if it is below the limit: a loop over ticks, since each row is written from the one
    // before.
    pub fn least(&self, work: &mut Workspace, limit: Length) -> Option<Length>
        ensures { option_map (λ n. n.0.0) result ≡ least_below (M.floor self.now.map.now) self.now.trips.now (all_bans self.now.bans) self.now.cart.0 limit.0.0 }
    {
        let last = limit.0.0.checked_sub(1)?;
        if self.starts_at_target() {
            return Some(Length(Tick(0)));
        }
        self.start(work);
        for u in 0..last {
            let t = Tick(u + 1);
            if self.ends_at(work, Length(t)) {
                return Some(Length(t));
            }
            self.advance(work, t);
        }
        None
    }
}

ghost use Rattle.std.specs.Prelude.{◌≡◌, IfOk};
ghost use Rattle.maps.specs.Changes.{Changed};
ghost use Rattle.maps.specs.ListMaps.{network_of};
ghost use Rattle.maps.specs.Networks.{bare, founding, FoundingTells};

use crate::list::{ListMap, MOST_CONNECTIONS};
use crate::refusal::MapRefusal;
use crate::rows::{MOST_PLACES, clear_rows};
use std::alloc::{AllocError, Global};

impl ListMap {
    // The memory of the largest floor: one of a single place, until another is founded.
    pub fn with_room(heap: Global) -> Result<ListMap, AllocError>
        ensures { IfOk result (λ map. network_of map ≡ bare 1) }
    {
        let mut rows = Vec::with_capacity(heap, MOST_PLACES)?;
        let connections = Vec::with_capacity(heap, MOST_CONNECTIONS)?;
        clear_rows(&mut rows, 1);
        Ok(ListMap { rows, connections })
    }

    // A floor of so many places and no connection, in the place of the one before; or why not.
    #[tactic(auto, using(crate::proofs::Founding::founding_tells), unfolding(crate::specs::Networks::founding))]
    pub fn found(&mut self, places: u16) -> Result<(), MapRefusal>
        ensures change { Changed network_of (founding places) self.old self.new result }
        ensures each_answer_exactly { FoundingTells }
    {
        if !(1..=1024).contains(&places) {
            return Err(MapRefusal::Count);
        }
        self.connections.clear();
        clear_rows(&mut self.rows, usize::from(places));
        Ok(())
    }
}

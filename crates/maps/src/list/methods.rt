ghost use Rattle.std.specs.Prelude.{◌≡◌};
ghost use Rattle.maps.specs.ListMaps.{network_of};
ghost use Rattle.maps.specs.Networks.{network_floor, Proper, NeighboursAreLinked, partners};
ghost use Rattle.floor.specs.Numbers.{numbers};
ghost use Rattle.maps.specs.ListMapsLemmas.{proper_map};

use crate::connection::Connection;
use crate::list::ListMap;
use crate::rows::row_at;
use floor::{FloorMap, Place};

impl ListMap {
    // The connections in their order.
    pub fn connections(&self) -> &[Connection]
        ensures value { result.now ≡ (network_of self.now).connections }
        ensures proper { Proper (network_of self.now) }
        ensures linked { NeighboursAreLinked (network_of self.now) }
    {
        self.connections.as_slice()
    }

    // The neighbours of a place: none off the floor.
    pub(super) fn row(&self, p: Place) -> &[Place]
        ensures { numbers result.now ≡ partners p.0 (network_of self.now).connections }
    {
        row_at(&self.rows, p)
    }
}

impl FloorMap for ListMap {
    ghost floor = { λ m. network_floor (network_of m) };

    ghost lawful = { λ m. (proper_map m).lawful };

    fn places(&self) -> usize {
        self.rows.len()
    }

    fn degree(&self, p: Place) -> usize {
        self.row(p).len()
    }

    fn neighbour(&self, p: Place, i: usize) -> Option<Place> {
        self.row(p).get(i).copied()
    }
}

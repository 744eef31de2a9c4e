ghost use Rattle.std.specs.Prelude.{◌≡◌};

use crate::{FloorMap, Place};
use std::marker::Model;

// The neighbours of a place in their order, asked one by one up to the absent one. In a contract it is the list of the
// numbers that are still to come.
#[derive(Drop)]
pub struct NeighbourIter<'a, M: FloorMap> {
    map: &'a M,
    place: Place,
    next: usize,
}

impl<'a, M: FloorMap> Model for NeighbourIter<'a, M> {
    ghost use Rattle.std.specs.Prelude.{ℕ, List, drop};

    ghost Value = { List ℕ };

    ghost view = { λ s. drop s.next ((M.FloorMap.floor s.map.now).next s.place.0) };
}

impl<'a, M: FloorMap> Iterator for NeighbourIter<'a, M> {
    ghost use Rattle.std.specs.Iterator.{YieldsFirstBy, item_count};

    type Item = Place;

    ghost next_gives = { YieldsFirstBy (λ q. q.0) (λ left. left) };

    ghost remaining = { item_count (λ left. left) };

    fn next(&mut self) -> Option<Place> {
        let q = self.map.neighbour(self.place, self.next)?;
        self.next += 1;
        Some(q)
    }
}

// The neighbours of `p`.
pub fn neighbours_of<M: FloorMap>(map: &M, p: Place) -> NeighbourIter<'_, M>
    ensures { result ≡ (M.FloorMap.floor map.now).next p.0 }
{
    NeighbourIter {
        map,
        place: p,
        next: 0,
    }
}

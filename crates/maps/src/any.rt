ghost use Rattle.maps.specs.AnyMaps.{hall_of, hall_floor};
ghost use Rattle.maps.specs.GridMaps.{grid_of};
ghost use Rattle.maps.specs.declared.any.AnyMap.TheVariants.{List, Grid};
ghost use Rattle.maps.specs.GridMapsLemmas.{map_sized};
ghost use Rattle.maps.specs.GridsLemmas.{grid_lawful};
ghost use Rattle.maps.specs.ListMapsLemmas.{proper_map};

use crate::grid::GridMap;
use crate::list::ListMap;
use floor::{FloorMap, Place};

// A map of either kind, lent: an enum and no `dyn`, since there are two and the meaning is told by kind.
#[derive(Clone, Copy)]
pub enum AnyMap<'m> {
    List(&'m ListMap),
    Grid(&'m GridMap),
}

impl<'m> FloorMap for AnyMap<'m> {
    ghost floor = { λ m. hall_floor (hall_of m) };

    ghost lawful = { elim [ List m ↦ (proper_map m.now).lawful | Grid m ↦ grid_lawful (grid_of m.now) (map_sized m.now) ] };

    fn places(&self) -> usize {
        match self {
            AnyMap::List(m) => m.places(),
            AnyMap::Grid(m) => m.places(),
        }
    }

    fn degree(&self, p: Place) -> usize {
        match self {
            AnyMap::List(m) => m.degree(p),
            AnyMap::Grid(m) => m.degree(p),
        }
    }

    fn neighbour(&self, p: Place, i: usize) -> Option<Place> {
        match self {
            AnyMap::List(m) => m.neighbour(p, i),
            AnyMap::Grid(m) => m.neighbour(p, i),
        }
    }
}

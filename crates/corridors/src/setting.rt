// A floor as it is, as a map, and with its corridors; and two carts on it.
use crate::arrangement::Arrangement;
use crate::corridor::{Corridor, corridors};
use crate::small_floor::SmallFloor;
use crate::walks::Walks;
use maps::ListMap;
use motion::{Ban, Trip};
use search::Branch;
use std::alloc::Global;

#[derive(Drop)]
pub struct Setting {
    pub floor: SmallFloor,
    pub map: ListMap,
    pub corridors: Vec<Corridor>,
}

impl Setting {
    // The corridors are found among the arrangements.
    pub fn new(
        heap: Global,
        floor: SmallFloor,
        arrangements: &[Arrangement],
    ) -> anyhow::Result<Setting> {
        Ok(Setting {
            floor,
            map: floor.list_map(heap)?,
            corridors: corridors(heap, &floor, arrangements)?,
        })
    }
}

// Two carts on a floor, the bans of a branch, and the walks of each cart that keep them.
#[derive(Drop)]
pub struct Case<'a> {
    pub setting: &'a Setting,
    pub trips: [Trip; 2],
    pub bans: &'a [Ban],
    pub walks: [Walks; 2],
}

impl Case<'_> {
    // The branch that a rule is asked about.
    pub fn branch(&self) -> Branch<'_, ListMap> {
        Branch {
            map: &self.setting.map,
            trips: &self.trips,
            bans: self.bans,
        }
    }
}

ghost use Rattle.std.specs.Prelude.{◌≤◌, IfOk};

use maps::{GridMap, ListMap};
use std::alloc::{AllocError, Global};

// The memory of the largest map of either kind. It is made once; maps are read in it, one after the other.
#[derive(Drop)]
pub struct MapMemory {
    pub(crate) list: ListMap,
    pub(crate) grid: GridMap,
    // what a grid file says of its cells, before they are laid out
    pub(crate) cells: Vec<bool>,
    ghost room: { 1024 ≤ cells.cap },
}

impl MapMemory {
    ghost use Rattle.mapfile.specs.Memories.{Fresh};

    pub fn new(heap: Global) -> Result<MapMemory, AllocError>
        ensures { IfOk result (λ m. Fresh m) }
    {
        Ok(MapMemory {
            list: ListMap::with_room(heap)?,
            grid: GridMap::with_room(heap)?,
            cells: Vec::with_capacity(heap, 1024)?,
        })
    }
}

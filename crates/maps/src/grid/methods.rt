ghost use Rattle.std.specs.Prelude.{◌≡◌, IfOk};
ghost use Rattle.maps.specs.Changes.{Changed};
ghost use Rattle.maps.specs.GridMaps.{grid_of};
ghost use Rattle.maps.specs.Grids.{around, free_at, grid_floor, gridding, one_cell, GriddingTells, NeighboursAreBeside, Sized};
ghost use Rattle.maps.specs.GridsLemmas.{grid_lawful};
ghost use Rattle.maps.specs.GridMapsLemmas.{map_sized};
ghost use Rattle.floor.specs.Numbers.{numbers};

use crate::grid::GridMap;
use crate::grid::cells::Cells;
use crate::refusal::MapRefusal;
use crate::rows::{MOST_PLACES, row_at};
use floor::{FloorMap, Place};
use std::alloc::{AllocError, Global};

impl GridMap {
    // The memory of the largest grid: one of a single free cell, until another is laid out.
    pub fn with_room(heap: Global) -> Result<GridMap, AllocError>
        ensures { IfOk result (λ map. grid_of map ≡ one_cell) }
    {
        let cells = Cells::with_room(heap)?;
        let mut rows = Vec::with_capacity(heap, MOST_PLACES)?;
        cells.fill_rows(&mut rows);
        Ok(GridMap { cells, rows })
    }

    // A floor of so many rows and columns, from what is said of each cell, in the place of the one before; or why not.
    #[tactic(auto, using(crate::proofs::Gridding::gridding_tells))]
    pub fn lay(&mut self, height: usize, width: usize, free: &[bool]) -> Result<(), MapRefusal>
        ensures change { Changed grid_of (gridding height width free.now) self.old self.new result }
        ensures each_answer_exactly { GriddingTells }
    {
        self.cells.lay(height, width, free)?;
        self.cells.fill_rows(&mut self.rows);
        Ok(())
    }

    // Whether there is a free cell at `p`.
    pub fn is_free(&self, p: Place) -> bool
        ensures value { result ≡ free_at (grid_of self.now) p.0 }
        ensures sized { Sized (grid_of self.now) }
        ensures beside { NeighboursAreBeside (grid_of self.now) }
    {
        self.cells.free_at(usize::from(p))
    }

    // The neighbours of a place: none off the floor.
    fn row(&self, p: Place) -> &[Place]
        ensures { numbers result.now ≡ around (grid_of self.now) p.0 }
    {
        row_at(&self.rows, p)
    }
}

impl FloorMap for GridMap {
    ghost floor = { λ m. grid_floor (grid_of m) };

    ghost lawful = { λ m. grid_lawful (grid_of m) (map_sized m) };

    fn places(&self) -> usize {
        self.cells.len()
    }

    fn degree(&self, p: Place) -> usize {
        self.row(p).len()
    }

    fn neighbour(&self, p: Place, i: usize) -> Option<Place> {
        self.row(p).get(i).copied()
    }
}

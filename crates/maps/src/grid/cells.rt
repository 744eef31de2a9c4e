ghost use Rattle.std.specs.Prelude.{◌≡◌, ℕ, ◌*◌, ◌<◌, ◌≤◌, [], ◌∷◌, ◌++◌, filter, length, vec_capacity, IfOk};
ghost use Rattle.arrayvec.specs.ArrayVec.{array_vec_len};
ghost use Rattle.maps.specs.Changes.{Changed};
ghost use Rattle.maps.specs.Grids.{around, free_at, gridding, one_cell};
ghost use Rattle.maps.specs.Tables.{numbers_in, row_of};

use crate::refusal::MapRefusal;
use crate::rows::MOST_PLACES;
use arrayvec::ArrayVec;
use floor::Place;
use std::alloc::{AllocError, Global};

// Free and blocked cells, row by row, with the memory of the largest grid from the start.
#[derive(Drop)]
pub struct Cells {
    height: usize,
    width: usize,
    free: Vec<bool>,
    ghost rows: { (1 ≤ height) × (height ≤ 32) },
    ghost columns: { (1 ≤ width) × (width ≤ 32) },
    ghost filled: { free.len ≡ height * width },
    ghost room: { 1024 ≤ free.cap },
}

impl Cells {
    ghost use Rattle.maps.specs.GridCells.{grid_in};

    // The memory of the largest grid: one free cell, until others are laid out.
    pub fn with_room(heap: Global) -> Result<Cells, AllocError>
        ensures { IfOk result (λ cells. grid_in cells ≡ one_cell) }
    {
        let mut free = Vec::with_capacity(heap, MOST_PLACES)?;
        free.push_reserved(true);
        Ok(Cells {
            height: 1,
            width: 1,
            free,
        })
    }

    // So many rows and columns, from what is said of each cell, in the place of those before; or why not.
    #[tactic(auto, unfolding(crate::specs::Grids::gridding))]
    pub fn lay(&mut self, height: usize, width: usize, free: &[bool]) -> Result<(), MapRefusal>
        ensures { Changed grid_in (gridding height width free.now) self.old self.new result }
    {
        if !(1..=32).contains(&height) || !(1..=32).contains(&width) {
            return Err(MapRefusal::Gauge);
        }
        if free.len() != height * width {
            return Err(MapRefusal::Ragged);
        }
        self.height = height;
        self.width = width;
        copy_cells(&mut self.free, free);
        Ok(())
    }

    pub fn len(&self) -> usize
        ensures { result ≡ self.now.height * self.now.width }
    {
        self.height * self.width
    }

    // Whether there is a free cell at `p`.
    pub fn free_at(&self, p: usize) -> bool
        ensures { result ≡ free_at (grid_in self.now) p }
    {
        self.free.get(p).copied().unwrap_or(false)
    }

    // Writes the neighbours of each cell into rows, in the place of those before.
    pub fn fill_rows(&self, rows: &mut Vec<ArrayVec<Place, 4>>)
        requires { 1024 ≤ vec_capacity rows.old }
        ensures tied { (p : ℕ) → row_of rows.new.items p ≡ around (grid_in self.now) p }
        ensures room { vec_capacity rows.new ≡ vec_capacity rows.old }
    {
        rows.clear();
        for p in 0..self.len() {
            rows.push_reserved(self.around(p));
        }
    }

    // The neighbours of `p`: above, left, right, below.
    #[tactic(auto, using(crate::proofs::Sides::kept_beside, crate::proofs::Sides::none_more), unfolding(crate::specs::Grids::around))]
    fn around(&self, p: usize) -> ArrayVec<Place, 4>
        ensures { numbers_in result ≡ around (grid_in self.now) p }
    {
        let mut row = ArrayVec::new();
        if !self.free_at(p) {
            return row;
        }
        if p >= self.width {
            self.add_free(&mut row, p - self.width);
        }
        if p % self.width != 0 {
            self.add_free(&mut row, p - 1);
        }
        if p % self.width + 1 != self.width {
            self.add_free(&mut row, p + 1);
        }
        self.add_free(&mut row, p + self.width);
        row
    }

    // Adds `q` to the row, if it is free.
    fn add_free(&self, row: &mut ArrayVec<Place, 4>, q: usize)
        requires { array_vec_len row.old < 4 }
        ensures { numbers_in row.new ≡ numbers_in row.old ++ filter (free_at (grid_in self.now)) (q ∷ []) }
    {
        if self.free_at(q) {
            row.push(Place(q as u16));
        }
    }
}

// Writes cells in the place of those before, in memory that is there.
fn copy_cells(cells: &mut Vec<bool>, free: &[bool])
    requires { length free.now ≤ vec_capacity cells.old }
    ensures items { cells.new.items ≡ free.now }
    ensures room { vec_capacity cells.new ≡ vec_capacity cells.old }
{
    cells.clear();
    for cell in free {
        cells.push_reserved(*cell);
    }
}

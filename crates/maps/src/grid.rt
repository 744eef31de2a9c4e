ghost use Rattle.std.specs.Prelude.{◌≡◌, ℕ, ◌≤◌};
ghost use Rattle.maps.specs.Grids.{around};
ghost use Rattle.maps.specs.GridCells.{grid_in};
ghost use Rattle.maps.specs.Tables.{row_of};

use crate::grid::cells::Cells;
use arrayvec::ArrayVec;
use floor::Place;

mod cells;
pub mod methods;

// A floor of free and blocked cells. The neighbours of each place are worked out when it is laid out, since a search
// asks for them over and over. It has the memory of the largest grid from the start, as a list map has.
#[derive(Drop)]
pub struct GridMap {
    cells: Cells,
    rows: Vec<ArrayVec<Place, 4>>,
    ghost tied: { (p : ℕ) → row_of rows.items p ≡ around (grid_in cells) p },
    ghost room: { 1024 ≤ rows.cap },
}

ghost use Rattle.std.specs.Prelude.{◌≡◌, ◌/◌, count_by};
ghost use Rattle.halls.specs.Degrees.{degrees};
ghost use Rattle.maps.specs.GridMaps.{grid_of};

use floor::{FloorMap, Place};
use maps::GridMap;

// How many connections a floor has: each is counted at both of its ends. Places have numbers below the floor's count,
// so nothing is lost by `as`.
pub fn connections<M: FloorMap>(map: &M) -> usize
    ensures { result ≡ degrees (M.FloorMap.floor map.now) / 2 }
{
    let ends: usize = (0..map.places()).map(|p| map.degree(Place(p as u16))).sum();
    ends / 2
}

// How many cells of a grid are free.
pub fn free_cells(grid: &GridMap) -> usize
    ensures { result ≡ count_by (λ free. free) (grid_of grid.now).free }
{
    (0..grid.places())
        .filter(|p| grid.is_free(Place(*p as u16)))
        .count()
}

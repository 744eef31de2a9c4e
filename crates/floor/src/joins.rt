ghost use Rattle.std.specs.Prelude.{◌≡◌, Decides};
ghost use Rattle.floor.specs.Floor.{Joined};
ghost use Rattle.floor.specs.Joins.{is_joined};

use crate::{FloorMap, Place, neighbours_of};

// Whether `q` is a neighbour of `p`.
pub fn is_joined<M: FloorMap>(map: &M, p: Place, q: Place) -> bool
    ensures computed { result ≡ is_joined (M.FloorMap.floor map.now) p.0 q.0 }
    ensures means { Decides result (Joined (M.FloorMap.floor map.now) p.0 q.0) }
{
    neighbours_of(map, p).any(|n| n == q)
}

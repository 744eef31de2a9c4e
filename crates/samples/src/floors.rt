ghost use Rattle.std.specs.Prelude.{◌≡◌, [], Ok};
ghost use Rattle.std.specs.Result.{result_map_both};
ghost use Rattle.maps.specs.ListMaps.{network_of};
ghost use Rattle.samples.specs.Floors.{between, connections_of, joining_all, line, lining, small_floor};

use floor::Place;
use maps::{Connection, ListMap, MapRefusal};

// Five places, in the memory of a map: four in a row, and one beside the third.
#[tactic(auto, unfolding(maps::specs::Networks::founding, maps::specs::Networks::joining))]
pub fn small_floor(mut map: ListMap) -> Result<ListMap, MapRefusal>
    ensures { Ok small_floor ≡ result_map_both network_of (λ e. e) result }
{
    map.found(5)?;
    join_all(map, &[(0, 1), (1, 2), (2, 3), (2, 4)])
}

// So many places in a line, with more connections, in the memory of a map.
#[tactic(auto, using(crate::proofs::Links::links_first), unfolding(maps::specs::Networks::founding, maps::specs::Networks::joining))]
pub fn line(mut map: ListMap, places: u16, more: &[(u16, u16)]) -> Result<ListMap, MapRefusal>
    ensures joined_in_turn { lining places (connections_of more.now) ≡ result_map_both network_of (λ e. e) result }
    ensures six_in_a_row { lining 6 [] ≡ Ok line }
{
    map.found(places)?;
    // by number: there is no list of places
    for p in 1..places {
        map.join(between(p - 1, p))?;
    }
    join_all(map, more)
}

// The map with more connections, joined in turn.
fn join_all(mut map: ListMap, pairs: &[(u16, u16)]) -> Result<ListMap, MapRefusal>
    ensures { joining_all (network_of map) (connections_of pairs.now) ≡ result_map_both network_of (λ e. e) result }
{
    for &(p, q) in pairs {
        map.join(between(p, q))?;
    }
    Ok(map)
}

fn between(p: u16, q: u16) -> Connection
    ensures { result ≡ between p q }
{
    Connection {
        first: Place(p),
        second: Place(q),
    }
}

ghost use Rattle.std.specs.Prelude.{◌≡◌};
ghost use Rattle.std.specs.Result.{result_map_both};
ghost use Rattle.maps.specs.AnyMaps.{hall_of};
ghost use Rattle.mapfile.specs.MapFiles.{is_list, map_reading, MapReadExactly, MapFaultsExactly};

use crate::fault::Fault;
use crate::grid::read_grid;
use crate::list::read_list;
use crate::memory::MapMemory;
use maps::AnyMap;

// A map in either layout, or the first fault. It lies in the memory, and is gone when another is read there.
pub fn read_map<'m>(memory: &'m mut MapMemory, bytes: &[u8]) -> Result<AnyMap<'m>, Fault>
    ensures is_the_reading { map_reading bytes.now ≡ result_map_both hall_of (λ f. f) result }
    ensures read_exactly { MapReadExactly bytes.now }
    ensures refused_exactly { MapFaultsExactly bytes.now }
{
    if is_list(bytes) {
        read_list(memory, bytes).map(AnyMap::List)
    } else {
        read_grid(memory, bytes).map(AnyMap::Grid)
    }
}

fn is_list(bytes: &[u8]) -> bool
    ensures { result ≡ is_list bytes.now }
{
    bytes.first() == Some(&b'P')
}

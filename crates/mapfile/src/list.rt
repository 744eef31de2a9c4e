ghost use Rattle.std.specs.Prelude.{◌≡◌};
ghost use Rattle.std.specs.Result.{result_map_both};
ghost use Rattle.cursor.specs.Rests.{before_rest, rest_of};
ghost use Rattle.maps.specs.ListMaps.{network_of};
ghost use Rattle.mapfile.specs.ListFiles.{connected, connection_at, counted, list_reading};
ghost use Rattle.mapfile.specs.ListLayout.{ListReadExactly, ListFaultsExactly};

use crate::fault::Fault;
use crate::memory::MapMemory;
use cursor::{Cursor, Missing};
use floor::Place;
use maps::{Connection, ListMap};

// A map in the list layout, or the first fault.
pub fn read_list<'m>(memory: &'m mut MapMemory, bytes: &[u8]) -> Result<&'m ListMap, Fault>
    ensures is_the_reading { list_reading bytes.now ≡ result_map_both (λ map. network_of map.now) (λ f. f) result }
    ensures read_exactly { ListReadExactly bytes.now }
    ensures refused_exactly { ListFaultsExactly bytes.now }
{
    fill_list(&mut memory.list, bytes)?;
    Ok(&memory.list)
}

// Makes of the map what the file says.
#[tactic(auto, unfolding(crate::specs::ListFiles::list_reading))]
fn fill_list(map: &mut ListMap, bytes: &[u8]) -> Result<(), Fault>
    ensures { list_reading bytes.now ≡ result_map_both (λ _. network_of map.new) (λ f. f) result }
{
    let (places, mut rest) = read_count(bytes)?;
    map.found(places).map_err(|refusal| Fault::new(refusal, 0))?;
    while !rest.bytes.is_empty() {
        rest = connect(map, rest)?;
    }
    Ok(())
}

// The number of places in the `P` command that the file begins with, and what is left behind it.
fn read_count(bytes: &[u8]) -> Result<(u16, Cursor<'_>), Fault>
    ensures { counted bytes.now ≡ result_map_both before_rest (λ f. f) result }
{
    let (count, rest) = Cursor { bytes, at: 0 }.operands::<2>(b'P')?;
    Ok((u16::from_be_bytes(count), rest))
}

// Joins the connection of the `W` command that is due, and gives what is left behind it.
fn connect<'a>(map: &mut ListMap, rest: Cursor<'a>) -> Result<Cursor<'a>, Fault>
    ensures { connected (network_of map.old) (rest_of rest.entry) ≡ result_map_both (λ left. (network_of map.new, rest_of left)) (λ f. f) result }
{
    let (connection, left) = read_connection(rest)?;
    map.join(connection)
        .map_err(|refusal| Fault::new(refusal, rest.at))?;
    Ok(left)
}

// The connection of the `W` command that is due, and what is left behind it.
pub fn read_connection(rest: Cursor<'_>) -> Result<(Connection, Cursor<'_>), Missing>
    ensures { connection_at (rest_of rest.entry) ≡ result_map_both before_rest (λ m. m) result }
{
    let ([a, b, c, d], left) = rest.operands::<4>(b'W')?;
    let connection = Connection {
        first: Place(u16::from_be_bytes([a, b])),
        second: Place(u16::from_be_bytes([c, d])),
    };
    Ok((connection, left))
}

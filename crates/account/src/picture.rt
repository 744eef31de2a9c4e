ghost use Rattle.std.specs.Prelude.{◌≤◌};

use floor::{FloorMap, Place};
use maps::GridMap;
use motion::Trip;
use std::io;

// A grid hall row by row, with the carts.
pub fn tell_picture(
    rt: &HostRuntime,
    grid: &GridMap,
    bytes: &[u8],
    trips: &[Trip],
) -> io::Result<()> {
    println!(rt;
        "  . free, @ blocked, a to p the starts of carts 0 to 15, A to P their targets; a start hides a target"
    )?;
    let width = width_of(bytes);
    for p in 0..grid.places() {
        if p % width == 0 {
            print!(rt; "  ")?;
        }
        print!(rt; "{}", sign_at(grid, Place(p as u16), trips))?;
        if p % width == width - 1 {
            println!(rt; "")?;
        }
    }
    Ok(())
}

// How long the rows of a grid's file are: as the last one, behind which stands nothing but its line end.
fn width_of(bytes: &[u8]) -> usize
    ensures { 1 ≤ result }
{
    let last = bytes.iter().rev().skip(1).take_while(|b| **b != b'\n');
    last.count().max(1)
}

// What is drawn for a cell: of several carts the first.
fn sign_at(grid: &GridMap, place: Place, trips: &[Trip]) -> char {
    let start = trips.iter().position(|trip| trip.start == place);
    let target = trips.iter().position(|trip| trip.target == place);
    let letter = match (start, target) {
        (Some(cart), _) => b"abcdefghijklmnop".get(cart),
        (None, Some(cart)) => b"ABCDEFGHIJKLMNOP".get(cart),
        (None, None) if grid.is_free(place) => Some(&b'.'),
        (None, None) => Some(&b'@'),
    };
    char::from(*letter.unwrap_or(&b'?'))
}

use crate::picture::tell_picture;
use floor::{FloorMap, Place, neighbours_of};
use maps::{AnyMap, ListMap};
use motion::Trip;
use std::io;

// A list hall of more places is told by its counts alone.
const MOST_LISTED: usize = 64;

// Places and connections; then the neighbours of each place of a list hall, or the picture of a grid hall with the carts.
pub fn tell_hall(rt: &HostRuntime, map: &AnyMap, bytes: &[u8], trips: &[Trip]) -> io::Result<()> {
    let places = map.places();
    println!(rt;
        "floor.map: {places} places, {} connections",
        connections(map)
    )?;
    match map {
        AnyMap::List(list) if places <= MOST_LISTED => tell_neighbours(rt, list),
        AnyMap::List(_) => Ok(()),
        AnyMap::Grid(grid) => tell_picture(rt, grid, bytes, trips),
    }
}

// Each connection is counted at both of its ends: a floor has at most 1,024 places with 8 neighbours each.
fn connections(map: &AnyMap) -> usize {
    let mut ends: usize = 0;
    for p in 0..1024 {
        ends = ends.saturating_add(map.degree(Place(p)));
    }
    ends / 2
}

fn tell_neighbours(rt: &HostRuntime, map: &ListMap) -> io::Result<()> {
    for p in 0..map.places().min(MOST_LISTED) {
        let p = Place(p as u16);
        print!(rt; "  place {p}:")?;
        for q in neighbours_of(map, p) {
            print!(rt; " {q}")?;
        }
        println!(rt; "")?;
    }
    Ok(())
}

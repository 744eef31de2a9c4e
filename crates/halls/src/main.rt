// Tells of two halls, one in each layout: what its file holds, how short its carts' routes can be, what each letter of a
// split gives, and of one hall whole checks call by call; and what becomes of damaged copies of the files.
#![tactic(auto)]

mod carts;
mod checks;
mod letters;
mod survey;

use anyhow::anyhow;
use floor::{FloorMap, Place, neighbours_of};
use mapfile::{MapMemory, read_map};
use maps::AnyMap;
use std::fmt::Display;
use std::{fs, io};
use survey::{connections, free_cells};

fn main(rt: HostRuntime) -> anyhow::Result<()> {
    run(&rt)
}

fn run(rt: &HostRuntime) -> anyhow::Result<()> {
    let list = fs::read(rt, "hall.list")?;
    let grid = fs::read(rt, "hall.grid")?;
    let memory = &mut MapMemory::new(rt.alloc())?;
    tell_list_hall(rt, memory, list.as_slice())?;
    tell_grid_hall(rt, memory, grid.as_slice())?;
    tell_damaged_list(rt, memory, list.as_slice())?;
    tell_damaged_grid(rt, memory, grid.as_slice())?;
    Ok(())
}

fn tell_list_hall(rt: &HostRuntime, memory: &mut MapMemory, bytes: &[u8]) -> anyhow::Result<()> {
    tell_file(rt, memory, "hall.list", bytes)?;
    let map = read_hall(memory, bytes)?;
    carts::tell_list_carts(rt, &map)?;
    letters::tell_list_letters(rt, &map)?;
    checks::tell_checks(rt, &map)
}

fn tell_grid_hall(rt: &HostRuntime, memory: &mut MapMemory, bytes: &[u8]) -> anyhow::Result<()> {
    tell_file(rt, memory, "hall.grid", bytes)?;
    let map = read_hall(memory, bytes)?;
    carts::tell_grid_carts(rt, &map)?;
    letters::tell_grid_letters(rt, &map)
}

// The fault itself has been told on the hall's own line by then.
fn read_hall<'m>(memory: &'m mut MapMemory, bytes: &[u8]) -> anyhow::Result<AnyMap<'m>> {
    read_map(memory, bytes).map_err(|_| anyhow!("the hall is not read"))
}

// What a file holds, or why it is refused.
fn tell_file(rt: &HostRuntime, memory: &mut MapMemory, name: &str, bytes: &[u8]) -> io::Result<()> {
    match read_map(memory, bytes) {
        Ok(map) => tell_map(rt, name, &map),
        Err(why) => println!(rt; "{name}: {why}"),
    }
}

fn tell_map(rt: &HostRuntime, name: &str, map: &AnyMap) -> io::Result<()> {
    let places = map.places();
    let joined = connections(map);
    println!(rt; "{name}: {places} places, {joined} connections")?;
    if let AnyMap::Grid(grid) = map {
        println!(rt; "  free cells: {}", free_cells(grid))?;
    }
    // by number: a map is asked, and is no list
    for p in 0..places.min(8) {
        tell_neighbours(rt, map, Place(p as u16))?;
    }
    Ok(())
}

fn tell_neighbours(rt: &HostRuntime, map: &AnyMap, p: Place) -> io::Result<()> {
    print!(rt; "  place {p}:")?;
    for q in neighbours_of(map, p) {
        print!(rt; " {q}")?;
    }
    println!(rt; "")
}

// The items on one line, each behind a space.
pub fn tell_each<T: Display>(rt: &HostRuntime, items: &[T]) -> io::Result<()> {
    for item in items {
        print!(rt; " {item}")?;
    }
    Ok(())
}

// A copy with another byte at `at`, told under what was done to it.
fn tell_changed(
    rt: &HostRuntime,
    memory: &mut MapMemory,
    done: &str,
    bytes: &[u8],
    at: usize,
    byte: u8,
) -> anyhow::Result<()> {
    let mut copy = bytes.to_vec(rt.alloc())?;
    if let Some(b) = copy.get_mut(at) {
        *b = byte;
    }
    tell_file(rt, memory, done, copy.as_slice())?;
    Ok(())
}

// A copy that ends before `end`.
fn tell_cut(
    rt: &HostRuntime,
    memory: &mut MapMemory,
    done: &str,
    bytes: &[u8],
    end: usize,
) -> io::Result<()> {
    tell_file(rt, memory, done, &bytes[0..end.min(bytes.len())])
}

// A copy with one byte more.
fn tell_longer(
    rt: &HostRuntime,
    memory: &mut MapMemory,
    done: &str,
    bytes: &[u8],
    byte: u8,
) -> anyhow::Result<()> {
    let mut copy = bytes.to_vec(rt.alloc())?;
    copy.push(byte)?;
    tell_file(rt, memory, done, copy.as_slice())?;
    Ok(())
}

// Copies with another byte each, one that is cut, and one with a byte more.
fn tell_damaged(
    rt: &HostRuntime,
    memory: &mut MapMemory,
    bytes: &[u8],
    changed: &[(&str, usize, u8)],
    (cut, end): (&str, usize),
    (longer, byte): (&str, u8),
) -> anyhow::Result<()> {
    for &(done, at, byte) in changed {
        tell_changed(rt, memory, done, bytes, at, byte)?;
    }
    tell_cut(rt, memory, cut, bytes, end)?;
    tell_longer(rt, memory, longer, bytes, byte)
}

fn tell_damaged_list(rt: &HostRuntime, memory: &mut MapMemory, bytes: &[u8]) -> anyhow::Result<()> {
    tell_damaged(
        rt,
        memory,
        bytes,
        &[
            ("list, no places", 2, 0),
            ("list, another letter", 8, b'X'),
            ("list, a place off the floor", 17, 5),
            ("list, a place joined to itself", 7, 0),
            ("list, a connection again the other way round", 12, 0),
        ],
        ("list, cut within a command", 20),
        ("list, one letter more", b'W'),
    )
}

fn tell_damaged_grid(rt: &HostRuntime, memory: &mut MapMemory, bytes: &[u8]) -> anyhow::Result<()> {
    tell_damaged(
        rt,
        memory,
        bytes,
        &[
            ("grid, another heading", 5, b'O'),
            ("grid, no rows", 19, b'0'),
            ("grid, a row more announced", 19, b'5'),
            ("grid, a column less announced", 27, b'4'),
            ("grid, a strange sign", 40, b'?'),
        ],
        ("grid, cut within a row", 50),
        ("grid, one sign more", b'.'),
    )
}

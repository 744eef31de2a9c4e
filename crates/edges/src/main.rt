// Runs map files at the edges of what is allowed, and prints what comes of each.
#![tactic(auto)]

mod grids;
mod lists;

use floor::FloorMap;
use mapfile::{MapMemory, read_map};
use std::io;

fn main(rt: HostRuntime) -> anyhow::Result<()> {
    run(&rt)
}

fn run(rt: &HostRuntime) -> anyhow::Result<()> {
    // one memory for all of them, also behind a file that is refused
    let mut memory = MapMemory::new(rt.alloc())?;
    lists::run(rt, &mut memory)?;
    grids::run(rt, &mut memory)
}

// A line for each file.
pub fn tell_each(
    rt: &HostRuntime,
    memory: &mut MapMemory,
    files: &[(&str, &[u8])],
) -> io::Result<()> {
    for &(what, bytes) in files {
        tell(rt, memory, what, bytes)?;
    }
    Ok(())
}

// One line for a file: how many places it has, or why it is refused.
pub fn tell(rt: &HostRuntime, memory: &mut MapMemory, what: &str, bytes: &[u8]) -> io::Result<()> {
    match read_map(memory, bytes) {
        Ok(map) => println!(rt; "{what}: {} places", map.places()),
        Err(why) => println!(rt; "{what}: {why}"),
    }
}

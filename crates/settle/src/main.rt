// Checks the plan in plan.work on the floor in floor.map, and prints what it comes to in one line.
#![tactic(auto)]

use report::{Memory, check_files};
use std::fs::File;
use std::io;
use std::io::{ErrorKind, Read};

// The longest file that is read.
const MOST_BYTES: u64 = 65536;

fn main(rt: HostRuntime) -> anyhow::Result<()> {
    run(&rt)
}

fn run(rt: &HostRuntime) -> anyhow::Result<()> {
    // both are looked at before either is read
    let map = read_file(rt, "floor.map")?;
    let plan = read_file(rt, "plan.work")?;
    match (map, plan) {
        (Some(map), Some(plan)) => tell(rt, &map, &plan),
        _ => Ok(println!(rt; "unread")?),
    }
}

// The bytes of a file: none where it cannot be read or is too long.
fn read_file(rt: &HostRuntime, name: &str) -> io::Result<Option<Vec<u8>>> {
    let Ok(file) = File::open(rt, name) else {
        return Ok(None);
    };
    let mut bytes = Vec::new(rt.alloc());
    match file.take(MOST_BYTES + 1).read_to_end(&mut bytes) {
        Ok(count) if count as u64 <= MOST_BYTES => Ok(Some(bytes)),
        Err(error) if error.kind() == ErrorKind::OutOfMemory => Err(error),
        _ => Ok(None),
    }
}

// The standing, or the fault.
fn tell(rt: &HostRuntime, map: &[u8], plan: &[u8]) -> anyhow::Result<()> {
    let mut memory = Memory::new(rt.alloc())?;
    match check_files(&mut memory, map, plan) {
        Ok(standing) => println!(rt; "{}", standing.verdict)?,
        Err(fault) => println!(rt; "{fault}")?,
    }
    Ok(())
}

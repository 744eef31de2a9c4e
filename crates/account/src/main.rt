// Tells every step of a check, for those who make plans: the hall of floor.map, each command of plan.work with its answer,
// the reason for it and the standing after it, and last the line that `settle` prints for the two files and what it means.
#![tactic(auto)]

mod answers;
mod bars;
mod calls;
mod closings;
mod conflicts;
mod corridors;
mod earliest;
mod hall;
mod letters;
mod opening;
mod outcomes;
mod passing;
mod picture;
mod routes;
mod scene;
mod shows;
mod split_reasons;
mod splitting;

use calls::tell_check;
use hall::tell_hall;
use mapfile::read_map;
use maps::AnyMap;
use opening::{tell_heading, tell_heading_fault, trips_in};
use outcomes::{tell_meaning, tell_nothing};
use plan::{Fault, Heading, read_heading};
use report::{Memory, check_files};
use search::Workspace;
use std::fs::File;
use std::io;
use std::io::{ErrorKind, Read};

// The longest file that is read.
const MOST_BYTES: u64 = 65536;

fn main(rt: HostRuntime) -> anyhow::Result<()> {
    run(&rt)
}

fn run(rt: &HostRuntime) -> anyhow::Result<()> {
    let map = read_file(rt, "floor.map")?;
    let plan = read_file(rt, "plan.work")?;
    match (map, plan) {
        (Some(map), Some(plan)) => tell(rt, &map, &plan),
        _ => Ok(println!(rt; "unread")?),
    }
}

// The bytes of a file: none where it cannot be read or is too long.
fn read_file(rt: &HostRuntime, name: &str) -> io::Result<Option<Vec<u8>>> {
    let Ok(file) = File::open(rt, name) else {
        return Ok(None);
    };
    let mut bytes = Vec::new(rt.alloc());
    match file.take(MOST_BYTES + 1).read_to_end(&mut bytes) {
        Ok(count) if count as u64 <= MOST_BYTES => Ok(Some(bytes)),
        Err(error) if error.kind() == ErrorKind::OutOfMemory => Err(error),
        _ => Ok(None),
    }
}

fn tell(rt: &HostRuntime, map_bytes: &[u8], plan: &[u8]) -> anyhow::Result<()> {
    let mut memory = Memory::new(rt.alloc())?;
    let heading = read_heading(plan);
    match read_map(&mut memory.map, map_bytes) {
        Ok(map) => {
            tell_hall(rt, &map, map_bytes, trips_in(&heading))?;
            tell_plan(rt, &mut memory.work, &map, &heading, plan)?;
        }
        Err(fault) => return Ok(println!(rt; "{fault} ({})", fault.refusal)?),
    }
    tell_outcome(rt, &mut memory, &heading, map_bytes, plan)
}

// The plan, whose heading is read, or has a fault.
fn tell_plan(
    rt: &HostRuntime,
    work: &mut Workspace,
    map: &AnyMap<'_>,
    heading: &Result<Heading<'_>, Fault>,
    plan: &[u8],
) -> anyhow::Result<()> {
    println!(rt; "plan.work:")?;
    match heading {
        Ok(heading) => {
            tell_heading(rt, plan, plan.len())?;
            tell_check(rt, work, map, heading, plan.len().saturating_sub(1))
        }
        Err(fault) => {
            tell_heading(rt, plan, fault.offset)?;
            Ok(tell_heading_fault(rt, plan, *fault)?)
        }
    }
}

// What `settle` prints, and what it means.
fn tell_outcome(
    rt: &HostRuntime,
    memory: &mut Memory,
    heading: &Result<Heading<'_>, Fault>,
    map: &[u8],
    plan: &[u8],
) -> anyhow::Result<()> {
    match check_files(memory, map, plan) {
        Ok(standing) => {
            let verdict = standing.verdict;
            println!(rt; "settle prints: {verdict}")?;
            if let Ok(heading) = heading {
                tell_meaning(rt, verdict, heading.claim)?;
            }
        }
        Err(fault) => {
            println!(rt; "settle prints: {fault}")?;
            tell_nothing(rt)?;
        }
    }
    Ok(())
}

// Whole plan files, command by command: S stands among our own letters, and the floor may be a row.
use crate::row::Row;
use crate::rules;
use floor::FloorMap;
use maps::ListMap;
use plan::check_plan;
use samples::{line, small_floor};
use search::Workspace;
use splits::{SplitRule, own_rules};

pub fn run(rt: &HostRuntime) -> anyhow::Result<()> {
    tell_small(rt)?;
    println!(rt; "a line as a list:")?;
    tell_line(rt, &line(ListMap::with_room(rt.alloc())?, 6, &[])?)?;
    println!(rt; "a line as a row:")?;
    tell_line(rt, &Row::new(6)?)
}

// What `calls` tells call by call: with S, without it, and where no rule knows it.
fn tell_small(rt: &HostRuntime) -> anyhow::Result<()> {
    let map = small_floor(ListMap::with_room(rt.alloc())?)?;
    let opening: [&[u8]; 5] = [
        b"O\x00\x06\x02",
        b"C\x00\x00\x00\x03",
        b"C\x00\x04\x00\x02",
        b"R\x00\x03\x00\x00\x00\x01\x00\x02\x00\x03",
        b"R\x01\x03\x00\x04\x00\x04\x00\x04\x00\x02",
    ];
    let tree: [&[u8]; 8] = [
        b"S\x01\x04\x01",
        b"V\x00\x01\x00\x02\x00\x02",
        b"X",
        b"X",
        b"T\x01\x00\x01",
        b"X",
        b"X",
        b"Z",
    ];
    println!(rt; "the small floor:")?;
    tell_plan(rt, "with S", &map, &rules(), &opening, &tree)?;
    tell_plan(rt, "without S", &map, &rules(), &opening, &tree[1..])?;
    tell_plan(rt, "without its rule", &map, &own_rules(), &opening, &tree)
}

// Six places in a line. Cart 0 goes from 0 to 2, and cart 1 from 5 to 3: each by itself needs 2 ticks, and they do not
// meet, so every branch can be closed. The places from 1 to 4 are a corridor, and neither cart is through before tick
// 4: so the split of it is allowed by tick 7, and not by tick 8.
fn tell_line<M: FloorMap>(rt: &HostRuntime, map: &M) -> anyhow::Result<()> {
    let opening: [&[u8]; 7] = [
        b"O\x00\x04\x02",
        b"C\x00\x00\x00\x02",
        b"C\x00\x05\x00\x03",
        b"R\x00\x02\x00\x00\x00\x01\x00\x02",
        b"R\x01\x02\x00\x05\x00\x04\x00\x03",
        b"S\x01\x05\x02",
        b"X",
    ];
    let by_7: &[u8] = b"K\x00\x01\x00\x01\x00\x02\x03\x00\x07\x00\x07";
    let by_8: &[u8] = b"K\x00\x01\x00\x01\x00\x02\x03\x00\x08\x00\x07";
    for (what, split) in [("K by tick 7", by_7), ("K by tick 8", by_8)] {
        let tree: [&[u8]; 4] = [split, b"X", b"X", b"Z"];
        tell_plan(rt, what, map, &rules(), &opening, &tree)?;
    }
    Ok(())
}

fn tell_plan<M: FloorMap, R: SplitRule>(
    rt: &HostRuntime,
    what: &str,
    map: &M,
    rules: &R,
    opening: &[&[u8]],
    tree: &[&[u8]],
) -> anyhow::Result<()> {
    let mut work = Workspace::new(rt.alloc())?;
    let mut plan = Vec::new(rt.alloc());
    for command in opening.iter().chain(tree) {
        plan.extend_from_slice(command)?;
    }
    match check_plan(&mut work, map, rules, &plan) {
        Ok(standing) => println!(rt; "  {what}: {}", standing.verdict)?,
        Err(fault) => println!(rt; "  {what}: {fault}")?,
    }
    Ok(())
}

// Whole plans on the small floor, by the line that is printed of them.
use crate::worked::settle_small_floor;
use report::{Fault, Memory, check_files};
use std::io;
use tally::Standing;

// The small floor's map file.
const MAP: [u8; 23] = [
    b'P', 0, 5, b'W', 0, 0, 0, 1, b'W', 0, 1, 0, 2, b'W', 0, 2, 0, 3, b'W', 0, 2, 0, 4,
];

// A claim of 6, and two carts: from 0 to 3, and from 4 to 2.
const HEADING: [u8; 14] = [b'O', 0, 6, 2, b'C', 0, 0, 0, 3, b'C', 0, 4, 0, 2];

// The second cart waits at 4 until the first has passed.
const ROUTES: [u8; 22] = [
    b'R', 0, 3, 0, 0, 0, 1, 0, 2, 0, 3, b'R', 1, 3, 0, 4, 0, 4, 0, 4, 0, 2,
];

pub fn run(rt: &HostRuntime) -> anyhow::Result<()> {
    let memory = &mut Memory::new(rt.alloc())?;
    tell_outcome(rt, "the small floor's plan", settle_small_floor(memory))?;
    let cases: [(&str, &[u8]); 4] = [
        ("split by tick 1", b"T\x01\x00\x01XXZ"),
        ("not split", b"XXZ"),
        ("closed once", b"T\x01\x00\x02XZ"),
        ("bytes behind the end", b"T\x01\x00\x02XXZZ"),
    ];
    for (what, tree) in cases {
        tell_plan(rt, memory, what, &[&HEADING, &ROUTES, tree])?;
    }
    tell_plan(
        rt,
        memory,
        "a cart that stays",
        &[b"O\0\0\x01C\0\x03\0\x03R\0\0\0\x03XZ"],
    )?;
    tell_deep(rt, memory, "64 splits on a branch", 64)?;
    tell_deep(rt, memory, "65 splits on a branch", 65)
}

// So many splits, each of the left side of the one before, and no closing.
fn tell_deep(
    rt: &HostRuntime,
    memory: &mut Memory,
    what: &str,
    splits: usize,
) -> anyhow::Result<()> {
    let mut tree = Vec::new(rt.alloc());
    for _ in 0..splits {
        tree.extend_from_slice(b"V\x00\x01\x00\x02\x00\x02")?;
    }
    tell_plan(rt, memory, what, &[&HEADING, &tree, b"Z"])
}

// A plan of some parts.
fn tell_plan(
    rt: &HostRuntime,
    memory: &mut Memory,
    what: &str,
    parts: &[&[u8]],
) -> anyhow::Result<()> {
    let mut plan = Vec::new(rt.alloc());
    for part in parts {
        plan.extend_from_slice(part)?;
    }
    Ok(tell_outcome(rt, what, check_files(memory, &MAP, &plan))?)
}

fn tell_outcome(rt: &HostRuntime, what: &str, outcome: Result<Standing, Fault>) -> io::Result<()> {
    match outcome {
        Ok(standing) => println!(rt; "{what}: {}", standing.verdict),
        Err(fault) => println!(rt; "{what}: {fault}"),
    }
}

use crate::{tell, tell_each};
use mapfile::{MapMemory, read_list};
use std::alloc::{AllocError, Global};
use std::io;

pub fn run(rt: &HostRuntime, memory: &mut MapMemory) -> anyhow::Result<()> {
    tell(rt, memory, "empty file", b"")?;
    tell_list(rt, memory, "empty file, as a list", b"")?;
    tell_list(rt, memory, "grid, as a list", b"type octile\n")?;
    for places in [0, 1, 1024, 1025, 65535] {
        tell_count(rt, memory, places)?;
    }
    tell_commands(rt, memory)?;
    tell_star(rt, memory, "eight neighbours", 8)?;
    tell_star(rt, memory, "a ninth neighbour", 9)?;
    tell_wheel(rt, memory, "4,096 connections", 4096)?;
    tell_wheel(rt, memory, "a 4,097th connection", 4097)
}

// Commands behind the count that are cut short, unknown or refused.
fn tell_commands(rt: &HostRuntime, memory: &mut MapMemory) -> io::Result<()> {
    tell_each(
        rt,
        memory,
        &[
            ("count cut short", b"P\x00"),
            ("a second count", b"P\x00\x02P\x00\x02"),
            ("a small letter", b"P\x00\x02w\x00\x00\x00\x01"),
            ("a connection cut short", b"P\x00\x02W\x00\x00\x00"),
            ("another letter cut short", b"P\x00\x02X"),
            ("first end off the floor", b"P\x00\x02W\x00\x02\x00\x01"),
            ("second end off the floor", b"P\x00\x02W\x00\x01\x01\x00"),
            ("itself", b"P\x00\x02W\x00\x01\x00\x01"),
            ("twice", b"P\x00\x02W\x00\x00\x00\x01W\x00\x00\x00\x01"),
            (
                "twice, the other way round",
                b"P\x00\x02W\x00\x00\x00\x01W\x00\x01\x00\x00",
            ),
        ],
    )
}

fn tell_list(rt: &HostRuntime, memory: &mut MapMemory, what: &str, bytes: &[u8]) -> io::Result<()> {
    match read_list(memory, bytes) {
        Ok(map) => println!(rt; "{what}: {} connections", map.connections().len()),
        Err(why) => println!(rt; "{what}: {why}"),
    }
}

fn tell_count(rt: &HostRuntime, memory: &mut MapMemory, places: u16) -> anyhow::Result<()> {
    let bytes = list_file(rt.alloc(), places)?;
    let what = format!(in rt.alloc(); "a count of {places}")?;
    tell(rt, memory, &what, &bytes)?;
    Ok(())
}

// One place in the middle of so many others, each joined by its number.
fn tell_star(
    rt: &HostRuntime,
    memory: &mut MapMemory,
    what: &str,
    others: u16,
) -> anyhow::Result<()> {
    let mut bytes = list_file(rt.alloc(), 16)?;
    for q in 0..others {
        push_connection(&mut bytes, q, 15)?;
    }
    tell(rt, memory, what, &bytes)?;
    Ok(())
}

// The first so many connections of a ring of 1,024 places, each joined to the four on either side: worked out from their
// number, as no list has them.
fn tell_wheel(
    rt: &HostRuntime,
    memory: &mut MapMemory,
    what: &str,
    connections: u16,
) -> anyhow::Result<()> {
    let mut bytes = list_file(rt.alloc(), 1024)?;
    for i in 0..connections {
        push_connection(&mut bytes, i % 1024, (i % 1024 + i / 1024 + 1) % 1024)?;
    }
    tell(rt, memory, what, &bytes)?;
    Ok(())
}

fn list_file(heap: Global, places: u16) -> Result<Vec<u8>, AllocError> {
    let [high, low] = places.to_be_bytes();
    Ok(vec![in heap; b'P', high, low]?)
}

fn push_connection(bytes: &mut Vec<u8>, p: u16, q: u16) -> Result<(), AllocError> {
    bytes.push(b'W')?;
    bytes.extend_from_slice(&p.to_be_bytes())?;
    bytes.extend_from_slice(&q.to_be_bytes())
}

// Splits where nothing is banned, at the edges of what is allowed.
use crate::scene::Scene;
use maps::ListMap;
use samples::{line, trip};
use search::Branch;
use splits::{SplitRule, own_rules};
use std::io;

pub fn run(rt: &HostRuntime) -> anyhow::Result<()> {
    tell_orders(rt)?;
    tell_ticks(rt)?;
    tell_lengths(rt)?;
    tell_corridors(rt)?;
    tell_ends(rt)
}

impl Scene<'_> {
    // What letters give where nothing is banned.
    fn tell_splits(&mut self, splits: &[(&str, u8, &[u8])]) -> io::Result<()> {
        let branch = Branch {
            map: &self.map,
            trips: &self.trips,
            bans: &[],
        };
        for &(what, letter, operands) in splits {
            match own_rules().sides(&mut self.work, &branch, letter, operands) {
                Ok((left, right)) => println!(self.rt; "{what}: {left}; or {right}")?,
                Err(refusal) => {
                    println!(self.rt; "{what}: refused {} ({refusal})", refusal.number())?
                }
            }
        }
        Ok(())
    }

    // The same of corridors: each from `p` by `q`, of length `k`, to be passed by ticks `m` and `n`.
    fn tell_passing(&mut self, corridors: &[(&str, [u8; 5])]) -> io::Result<()> {
        for &(what, [p, q, k, m, n]) in corridors {
            let operands = [0, 1, 0, p, 0, q, k, 0, m, 0, n];
            self.tell_splits(&[(what, b'K', &operands)])?;
        }
        Ok(())
    }
}

// So many places in a line, with more connections.
fn line_of(rt: &HostRuntime, places: u16, more: &[(u16, u16)]) -> anyhow::Result<ListMap> {
    Ok(line(ListMap::with_room(rt.alloc())?, places, more)?)
}

// Of several faults the first that is tested is told.
fn tell_orders(rt: &HostRuntime) -> anyhow::Result<()> {
    let map = line_of(rt, 6, &[])?;
    let mut scene = Scene::new(rt, map, [trip(0, 5), trip(5, 0)])?;
    scene.tell_splits(&[
        ("E, all wrong", b'E', &[0, 2, 0, 9, 0, 9, 255, 255]),
        (
            "E, place and tick wrong",
            b'E',
            &[0, 1, 0, 9, 0, 9, 255, 255],
        ),
        (
            "E, tick and connection wrong",
            b'E',
            &[0, 1, 0, 1, 0, 3, 255, 255],
        ),
        ("E, places not joined", b'E', &[0, 1, 0, 1, 0, 3, 0, 1]),
        ("E at tick 0", b'E', &[0, 1, 0, 1, 0, 2, 0, 0]),
        ("V, one cart for both", b'V', &[1, 1, 0, 1, 0, 1]),
        ("T, an unknown cart", b'T', &[2, 0, 1]),
    ])?;
    Ok(())
}

fn tell_ticks(rt: &HostRuntime) -> anyhow::Result<()> {
    let map = line_of(rt, 6, &[])?;
    let mut scene = Scene::new(rt, map, [trip(0, 5), trip(5, 0)])?;
    scene.tell_splits(&[
        ("V at tick 4,000", b'V', &[0, 1, 0, 1, 15, 160]),
        ("V at tick 4,001", b'V', &[0, 1, 0, 1, 15, 161]),
        ("T at tick 4,000", b'T', &[0, 15, 160]),
        ("T at tick 4,001", b'T', &[0, 15, 161]),
        ("E, spare bytes", b'E', &[0, 1, 0, 1, 0, 2, 15, 160, 255]),
    ])?;
    Ok(())
}

// Corridors of 0, 1, 63 and 64 steps, in a line of 66 places.
fn tell_lengths(rt: &HostRuntime) -> anyhow::Result<()> {
    let map = line_of(rt, 66, &[])?;
    let mut scene = Scene::new(rt, map, [trip(0, 65), trip(65, 0)])?;
    scene.tell_passing(&[
        ("K of length 0", [1, 2, 0, 1, 1]),
        ("K of length 1", [1, 2, 1, 65, 3]),
        ("K of length 63", [1, 2, 63, 64, 64]),
        ("K of length 64", [1, 2, 64, 1, 1]),
    ])?;
    Ok(())
}

// The corridor from 1 by 2 to 4, where more connections are made.
fn tell_corridors(rt: &HostRuntime) -> anyhow::Result<()> {
    let way = [1, 2, 3, 7, 7];
    let trips = [trip(0, 5), trip(5, 0)];
    let within = [trip(2, 5), trip(5, 0)];
    let mut plain = Scene::new(rt, line_of(rt, 6, &[])?, trips)?;
    let mut bypass = Scene::new(rt, line_of(rt, 7, &[(1, 6), (6, 4)])?, trips)?;
    let mut branching = Scene::new(rt, line_of(rt, 7, &[(2, 6)])?, trips)?;
    let mut entered = Scene::new(rt, line_of(rt, 6, &[])?, within)?;
    plain.tell_passing(&[
        ("K by 7 and 7", way),
        ("K by 8 and 7", [1, 2, 3, 8, 7]),
        ("K by 7 and 8", [1, 2, 3, 7, 8]),
        ("K, p and q not joined", [1, 3, 3, 7, 7]),
    ])?;
    bypass.tell_passing(&[("K with a bypass", way)])?;
    branching.tell_passing(&[("K, an inner place of three", way)])?;
    entered.tell_passing(&[("K, a start within", way)])?;
    Ok(())
}

// A corridor into a dead end, and one around a ring.
fn tell_ends(rt: &HostRuntime) -> anyhow::Result<()> {
    let trips = [trip(0, 5), trip(5, 0)];
    let mut plain = Scene::new(rt, line_of(rt, 6, &[])?, trips)?;
    let mut ring = Scene::new(rt, line_of(rt, 6, &[(5, 0)])?, trips)?;
    plain.tell_passing(&[
        ("K to the end of the line", [3, 4, 2, 4, 7]),
        ("K past the end of the line", [3, 4, 3, 4, 4]),
    ])?;
    ring.tell_passing(&[
        ("K on a ring by 1 and 1", [1, 2, 3, 1, 1]),
        ("K on a ring by 2 and 1", [1, 2, 3, 2, 1]),
        ("K around a ring", [1, 2, 6, 7, 7]),
    ])?;
    Ok(())
}

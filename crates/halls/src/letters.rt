// What each letter of a split gives on a hall.
use crate::carts::grid_trips;
use crate::tell_each;
use maps::AnyMap;
use motion::Trip;
use samples::small_trips;
use search::{Branch, Workspace};
use splits::{SplitRule, own_rules};
use std::io;

// The carts meet at place 2, and the way from 0 to 2 is a corridor.
pub fn tell_list_letters(rt: &HostRuntime, map: &AnyMap) -> anyhow::Result<()> {
    let splits: [(u8, &[u8]); 5] = [
        (b'V', &[0, 1, 0, 2, 0, 2]),
        (b'E', &[0, 1, 0, 2, 0, 4, 0, 3]),
        (b'T', &[1, 0, 2]),
        (b'K', &[0, 1, 0, 0, 0, 1, 2, 0, 5, 0, 4]),
        (b'K', &[0, 1, 0, 0, 0, 1, 2, 0, 5, 0, 5]),
    ];
    tell_letters(rt, map, &small_trips(), &splits)
}

// The column at the left edge is a corridor, with a way around it on the right.
pub fn tell_grid_letters(rt: &HostRuntime, map: &AnyMap) -> anyhow::Result<()> {
    let splits: [(u8, &[u8]); 5] = [
        (b'V', &[0, 1, 0, 20, 0, 2]),
        (b'E', &[0, 1, 0, 0, 0, 6, 0, 3]),
        (b'T', &[2, 0, 2]),
        (b'K', &[0, 1, 0, 0, 0, 5, 2, 0, 7, 0, 4]),
        (b'K', &[0, 1, 0, 0, 0, 5, 2, 0, 8, 0, 4]),
    ];
    tell_letters(rt, map, &grid_trips(), &splits)
}

// What letters with their operands give where nothing is banned.
fn tell_letters(
    rt: &HostRuntime,
    map: &AnyMap,
    trips: &[Trip; 2],
    splits: &[(u8, &[u8])],
) -> anyhow::Result<()> {
    let mut work = Workspace::new(rt.alloc())?;
    let branch = Branch {
        map,
        trips,
        bans: &[],
    };
    for &(letter, operands) in splits {
        tell_letter(rt, &mut work, &branch, letter, operands)?;
    }
    Ok(())
}

// The letter with its operands, and both sides or the refusal.
fn tell_letter(
    rt: &HostRuntime,
    work: &mut Workspace,
    branch: &Branch<AnyMap>,
    letter: u8,
    operands: &[u8],
) -> io::Result<()> {
    print!(rt; "  split {}", char::from(letter))?;
    tell_each(rt, operands)?;
    match own_rules().sides(work, branch, letter, operands) {
        Ok((left, right)) => {
            println!(rt; "")?;
            println!(rt; "    left: {left}")?;
            println!(rt; "    right: {right}")
        }
        Err(refusal) => println!(rt; ": refused {} ({refusal})", refusal.number()),
    }
}

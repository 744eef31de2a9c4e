// What the rules say of a letter and the bytes after it.
use crate::rules;
use floor::FloorMap;
use maps::ListMap;
use samples::{line, trip};
use search::{Branch, Workspace};
use splits::SplitRule;
use std::io;

pub fn run(rt: &HostRuntime) -> anyhow::Result<()> {
    let mut work = Workspace::new(rt.alloc())?;
    let map = line(ListMap::with_room(rt.alloc())?, 2, &[])?;
    let branch = Branch {
        map: &map,
        trips: &[trip(0, 1), trip(1, 0)],
        bans: &[],
    };
    let cases: [(u8, &[u8]); 5] = [
        (b'V', &[0, 1, 0, 1, 0, 3]),
        (b'S', &[1, 1, 3]),
        (b'S', &[1, 0, 3]),
        (b'S', &[1, 1]),
        (b'Y', &[]),
    ];
    for (letter, bytes) in cases {
        tell_letter(rt, &mut work, &branch, letter, bytes)?;
    }
    Ok(())
}

fn tell_letter<M: FloorMap>(
    rt: &HostRuntime,
    work: &mut Workspace,
    branch: &Branch<M>,
    letter: u8,
    bytes: &[u8],
) -> io::Result<()> {
    let rules = rules();
    print!(rt; "{}: ", char::from(letter))?;
    if !rules.knows(letter) {
        return println!(rt; "unknown");
    }
    if rules.width(letter, bytes).is_none() {
        return println!(rt; "cut short");
    }
    match rules.sides(work, branch, letter, bytes) {
        Ok((left, right)) => println!(rt; "{left}; or {right}"),
        Err(refusal) => println!(rt; "refused {}", refusal.number()),
    }
}

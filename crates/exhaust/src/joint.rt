// Steps of all carts at once.
use crate::arrangement::Arrangement;
use crate::carts::BITS;
use crate::small_floor::SmallFloor;
use floor::Place;
use std::alloc::{AllocError, Global};

// A step from one arrangement to another, by their numbers, with the set of carts that do not wait.
#[derive(Clone, Copy)]
pub struct JointStep {
    pub from: usize,
    pub to: usize,
    pub movers: u8,
}

// All the steps without conflict that the floor has.
pub fn joint_steps(
    heap: Global,
    floor: &SmallFloor,
    stands: &[Arrangement],
) -> Result<Vec<JointStep>, AllocError> {
    let mut steps = Vec::new(heap);
    for (from, before) in stands.iter().enumerate() {
        push_steps(&mut steps, floor, stands, from, before)?;
    }
    Ok(steps)
}

fn push_steps(
    steps: &mut Vec<JointStep>,
    floor: &SmallFloor,
    stands: &[Arrangement],
    from: usize,
    before: &[Place],
) -> Result<(), AllocError> {
    for (to, after) in stands.iter().enumerate() {
        if may_go(floor, before, after) && !some_swap(before, after) {
            let movers = movers(before, after);
            steps.push(JointStep { from, to, movers })?;
        }
    }
    Ok(())
}

// Whether each cart waits or goes to a neighbour.
fn may_go(floor: &SmallFloor, before: &[Place], after: &[Place]) -> bool {
    before
        .iter()
        .zip(after)
        .all(|(p, q)| floor.may_step(*p, *q))
}

// Whether some cart goes where another comes from, and the other goes where it comes from.
fn some_swap(before: &[Place], after: &[Place]) -> bool {
    before
        .iter()
        .zip(after)
        .any(|(p, q)| p != q && goes(before, after, *q, *p))
}

// Whether some cart goes from one place to the other.
fn goes(before: &[Place], after: &[Place], p: Place, q: Place) -> bool {
    before.iter().zip(after).any(|(r, s)| *r == p && *s == q)
}

fn movers(before: &[Place], after: &[Place]) -> u8 {
    let mut movers = 0;
    for ((p, q), bit) in before.iter().zip(after).zip(&BITS) {
        if p != q {
            movers |= bit;
        }
    }
    movers
}

// The corridors of a floor: of all orders of its places, those that are one.
use crate::arrangement::Arrangement;
use crate::small_floor::SmallFloor;
use floor::Place;
use std::alloc::{AllocError, Global};

// Its places, from one end to the other.
#[derive(Drop)]
pub struct Corridor {
    pub places: Arrangement,
    pub length: u8,
    // the first two places, and the last two
    pub first: Place,
    pub second: Place,
    pub last_but_one: Place,
    pub last: Place,
}

// All corridors among the arrangements.
pub fn corridors(
    heap: Global,
    floor: &SmallFloor,
    arrangements: &[Arrangement],
) -> Result<Vec<Corridor>, AllocError> {
    let mut corridors = Vec::new(heap);
    for places in arrangements {
        if is_corridor(floor, places) {
            push_corridor(heap, &mut corridors, places)?;
        }
    }
    Ok(corridors)
}

fn push_corridor(
    heap: Global,
    corridors: &mut Vec<Corridor>,
    places: &[Place],
) -> Result<(), AllocError> {
    if let [first, second, ..] = *places
        && let [.., last_but_one, last] = *places
    {
        corridors.push(Corridor {
            places: places.to_vec(heap)?,
            length: u8::try_from(places.len().saturating_sub(1)).unwrap_or(0),
            first,
            second,
            last_but_one,
            last,
        })?;
    }
    Ok(())
}

// Whether each of the places, which are all different, is joined to the next, and the inner ones to no others.
fn is_corridor(floor: &SmallFloor, places: &[Place]) -> bool {
    let joined = places
        .iter()
        .zip(places.iter().skip(1))
        .all(|(p, q)| floor.joins(*p, *q));
    joined && inner(places).iter().all(|p| floor.degree(*p) == 2)
}

// All places but the two ends.
pub fn inner(places: &[Place]) -> &[Place] {
    match places {
        [_, inner @ .., _] => inner,
        _ => &[],
    }
}

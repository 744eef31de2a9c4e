// Different places of a floor in an order: the new numbers of its places, or places that may be a corridor.
use floor::Place;
use std::alloc::{AllocError, Global};

pub type Arrangement = Vec<Place>;

// All arrangements of so many of the places.
pub fn arrangements(heap: Global, places: u16, count: u16) -> Result<Vec<Arrangement>, AllocError> {
    let mut all = vec![in heap; Vec::new(heap)]?;
    for _ in 0..count {
        all = all_longer(heap, &all, places)?;
    }
    Ok(all)
}

// The arrangements with one place more.
fn all_longer(
    heap: Global,
    all: &[Arrangement],
    places: u16,
) -> Result<Vec<Arrangement>, AllocError> {
    let mut longer = Vec::new(heap);
    for arrangement in all {
        push_longer(heap, &mut longer, arrangement, places)?;
    }
    Ok(longer)
}

// The arrangement with each of the places that are not in it.
fn push_longer(
    heap: Global,
    longer: &mut Vec<Arrangement>,
    arrangement: &[Place],
    places: u16,
) -> Result<(), AllocError> {
    for p in 0..places {
        if !arrangement.contains(&Place(p)) {
            longer.push(with_place(heap, arrangement, Place(p))?)?;
        }
    }
    Ok(())
}

fn with_place(
    heap: Global,
    arrangement: &[Place],
    place: Place,
) -> Result<Arrangement, AllocError> {
    let mut longer = arrangement.to_vec(heap)?;
    longer.push(place)?;
    Ok(longer)
}

// The arrangements of two places and more.
pub fn runs(heap: Global, places: u16) -> Result<Vec<Arrangement>, AllocError> {
    let mut runs = Vec::new(heap);
    for count in 2..=places {
        let mut longer = arrangements(heap, places, count)?;
        runs.append(&mut longer)?;
    }
    Ok(runs)
}

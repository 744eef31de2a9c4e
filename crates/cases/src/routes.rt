use floor::Place;
use maps::ListMap;
use motion::{Trip, check_route, in_conflict};
use samples::{small_floor, trip};
use std::alloc::{AllocError, Global};
use std::io;

pub fn run(rt: &HostRuntime) -> anyhow::Result<()> {
    let small = small_floor(ListMap::with_room(rt.alloc())?)?;
    let way = trip(4, 2);
    tell_routes(rt, &small, way)?;
    tell_long(rt, &small, way, 255)?;
    tell_long(rt, &small, way, 256)?;
    tell_conflicts(rt)?;
    tell_swap(rt, "a swap after 200 ticks", Place(0))?;
    tell_swap(rt, "both go on after 200 ticks", Place(2))
}

fn tell_routes(rt: &HostRuntime, map: &ListMap, trip: Trip) -> io::Result<()> {
    let cases: [(&str, &[Place]); 8] = [
        ("4 4 4 2 to 2", &[Place(4), Place(4), Place(4), Place(2)]),
        (
            "4 4 4 2 2 to 2",
            &[Place(4), Place(4), Place(4), Place(2), Place(2)],
        ),
        ("no places", &[]),
        (
            "a place off the floor, and no route either",
            &[Place(5), Place(0)],
        ),
        ("another start", &[Place(2)]),
        ("another end", &[Place(4)]),
        ("a leap", &[Place(4), Place(3), Place(2)]),
        (
            "through the target and back",
            &[Place(4), Place(2), Place(3), Place(2)],
        ),
    ];
    for (what, places) in cases {
        tell_route(rt, what, map, trip, places)?;
    }
    Ok(())
}

fn tell_route(
    rt: &HostRuntime,
    what: &str,
    map: &ListMap,
    trip: Trip,
    places: &[Place],
) -> io::Result<()> {
    match check_route(map, trip, places) {
        Ok(()) => println!(rt; "{what}: a route"),
        Err(refusal) => println!(rt; "{what}: refused {}", refusal.number()),
    }
}

// A route that waits at its start and arrives with its last step.
fn tell_long(rt: &HostRuntime, map: &ListMap, trip: Trip, steps: usize) -> anyhow::Result<()> {
    let places = waiting(rt.alloc(), trip.start, steps, trip.target)?;
    let what = format!(in rt.alloc(); "{steps} steps")?;
    tell_route(rt, &what, map, trip, &places)?;
    Ok(())
}

// So many ticks at one place, and then another place.
fn waiting(heap: Global, p: Place, ticks: usize, next: Place) -> Result<Vec<Place>, AllocError> {
    let mut places = vec![in heap; p; ticks]?;
    places.push(next)?;
    Ok(places)
}

fn tell_conflicts(rt: &HostRuntime) -> io::Result<()> {
    let cases: [(&str, &[Place], &[Place]); 7] = [
        (
            "0 1 2 and 1 2 3",
            &[Place(0), Place(1), Place(2)],
            &[Place(1), Place(2), Place(3)],
        ),
        ("0 1 and 1 0", &[Place(0), Place(1)], &[Place(1), Place(0)]),
        (
            "0 1 2 3 and 4 2",
            &[Place(0), Place(1), Place(2), Place(3)],
            &[Place(4), Place(2)],
        ),
        ("resting at two places", &[Place(0)], &[Place(1)]),
        ("resting at one place", &[Place(0)], &[Place(0)]),
        (
            "one rests, the other comes to it",
            &[Place(0)],
            &[Place(2), Place(1), Place(0)],
        ),
        ("an empty list", &[], &[Place(0)]),
    ];
    for (what, a, b) in cases {
        tell_conflict(rt, what, a, b)?;
    }
    Ok(())
}

// Both wait for 200 ticks, at 0 and at 1, and then go to 1 and to `second`.
fn tell_swap(rt: &HostRuntime, what: &str, second: Place) -> anyhow::Result<()> {
    let a = waiting(rt.alloc(), Place(0), 200, Place(1))?;
    let b = waiting(rt.alloc(), Place(1), 200, second)?;
    tell_conflict(rt, what, &a, &b)?;
    Ok(())
}

fn tell_conflict(rt: &HostRuntime, what: &str, a: &[Place], b: &[Place]) -> io::Result<()> {
    let conflict = if in_conflict(a, b) {
        "conflict"
    } else {
        "no conflict"
    };
    println!(rt; "{what}: {conflict}")
}

use floor::{Cart, Place, Tick};
use maps::AnyMap;
use motion::{Ban, Length, Trip};
use samples::{small_trips, trip};
use search::{Branch, Workspace};
use std::io;

// The largest claim that a plan may make, and so the limit of a search.
const MOST: Length = Length(Tick(4000));

// The two carts of the small floor, under no bans and under each of two.
pub fn tell_list_carts(rt: &HostRuntime, map: &AnyMap) -> anyhow::Result<()> {
    let cart = Cart(1);
    let tick = Tick(2);
    let cases: [(&str, &[Ban]); 3] = [
        ("no bans", &[]),
        ("cart 1 late 2", &[Ban::Late { cart, tick }]),
        ("cart 1 by 2", &[Ban::By { cart, tick }]),
    ];
    tell_carts(rt, map, &small_trips(), &cases)
}

// Two carts that go around the blocked cells of the grid hall.
pub fn grid_trips() -> [Trip; 2] {
    [trip(0, 18), trip(9, 5)]
}

// The two carts of the grid hall, of which one may not be at its target at tick 9.
pub fn tell_grid_carts(rt: &HostRuntime, map: &AnyMap) -> anyhow::Result<()> {
    let away = Ban::Stand {
        cart: Cart(1),
        place: Place(5),
        first: Tick(9),
        last: Tick(9),
    };
    tell_carts(
        rt,
        map,
        &grid_trips(),
        &[("no bans", &[]), ("cart 1 not at 5 at tick 9", &[away])],
    )
}

// Two carts under each of some lists of bans, told under what these are.
fn tell_carts(
    rt: &HostRuntime,
    map: &AnyMap,
    trips: &[Trip; 2],
    cases: &[(&str, &[Ban])],
) -> anyhow::Result<()> {
    for &(under, bans) in cases {
        let mut work = Workspace::new(rt.alloc())?;
        println!(rt; "  {under}:")?;
        tell_branch(rt, &mut work, &Branch { map, trips, bans })?;
    }
    Ok(())
}

// The least length of each of two carts in a branch, and whether routes of these lengths sum below 6, and below 7.
fn tell_branch(rt: &HostRuntime, work: &mut Workspace, branch: &Branch<AnyMap>) -> io::Result<()> {
    for cart in [Cart(0), Cart(1)] {
        tell_length(rt, work, branch, cart)?;
    }
    let below_6 = branch.cheaper(work, 6);
    let below_7 = branch.cheaper(work, 7);
    println!(rt; "    some set sums below 6: {below_6}, below 7: {below_7}")
}

fn tell_length(
    rt: &HostRuntime,
    work: &mut Workspace,
    branch: &Branch<AnyMap>,
    cart: Cart,
) -> io::Result<()> {
    match branch.least_length(work, cart, MOST) {
        Some(length) => println!(rt; "    cart {cart}: least length {length}"),
        None => println!(rt; "    cart {cart}: no route"),
    }
}

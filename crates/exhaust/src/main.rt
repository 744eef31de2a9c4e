// Goes through every floor of a few places with one, two and three carts, and has the check confirm what a plain search
// finds.
#![tactic(auto)]

mod all_walks;
mod arrangement;
mod bounds;
mod cart_route;
mod carts;
mod conflict;
mod counts;
mod draw;
mod instance;
mod instances;
mod joint;
mod least_routes;
mod plan;
mod planted;
mod renumbered;
mod searches;
mod small_floor;
mod split;
mod sums;
mod tree;
mod walk;

use anyhow::ensure;
use bounds::Bounds;
use instances::go_through;
use planted::Planted;
use renumbered::Taken;
use small_floor::floor_count;

fn main(rt: HostRuntime) -> anyhow::Result<()> {
    run(&rt)
}

fn run(rt: &HostRuntime) -> anyhow::Result<()> {
    let bounds = Bounds::read(rt)?;
    searches::tell_planted(rt)?;
    tell_planted(rt)?;
    let mut disagreements = searches::compare(rt, bounds.searches)?;
    for (carts, most) in (1..).zip(bounds.places) {
        let more = tell_carts(rt, carts, most, bounds.splits)?;
        disagreements = disagreements.saturating_add(more);
    }
    ensure!(disagreements == 0, "{disagreements} disagreements");
    Ok(())
}

// So many carts, on floors of up to so many places: how many disagreements there are.
fn tell_carts(rt: &HostRuntime, carts: u16, most: u16, splits: u32) -> anyhow::Result<u64> {
    let mut disagreements = 0u64;
    for places in carts..=most {
        let more = tell_floors(rt, carts, places, splits)?;
        disagreements = disagreements.saturating_add(more);
    }
    Ok(disagreements)
}

// One cart is gone through on all floors, and more on one of those that differ only in their places' numbers.
fn tell_floors(rt: &HostRuntime, carts: u16, places: u16, splits: u32) -> anyhow::Result<u64> {
    let heap = rt.alloc();
    let taken = if carts == 1 {
        Taken::all(heap, places)?
    } else {
        Taken::first_of_each(heap, places)?
    };
    let all = floor_count(places);
    let count = taken.numbers.len();
    println!(rt;
        "carts {carts}, places {places}: {all} floors, {count} taken, which renumbered are {}",
        taken.covered
    )?;
    ensure!(taken.covered == all, "a floor is left out");
    let counts = go_through(rt, carts, places, &taken.numbers, splits, Planted::Nothing)?;
    println!(rt; "{counts}")?;
    Ok(counts.disagreements)
}

// Each comparison is tried on two carts and three places with a difference planted, which it has to notice.
fn tell_planted(rt: &HostRuntime) -> anyhow::Result<()> {
    let floors = Taken::first_of_each(rt.alloc(), 3)?;
    println!(rt; "planted with two carts on three places:")?;
    for planted in planted::ALL {
        let counts = go_through(rt, 2, 3, &floors.numbers, 100, planted)?;
        let noticed = counts.disagreements;
        println!(rt; "    {planted}: {noticed} disagreements")?;
        ensure!(noticed > 0, "a disagreement is not noticed");
    }
    Ok(())
}

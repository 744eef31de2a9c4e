// Tries splits on corridors on every floor of a few places, and compares what the rule answers with what a plain search
// over all walks says.
#![tactic(auto)]

mod answer;
mod arrangement;
mod bans;
mod bounds;
mod compare;
mod corridor;
mod counts;
mod draw;
mod floors;
mod lists;
mod noticed;
mod operands;
mod planted;
mod setting;
mod small_floor;
mod walks;

use anyhow::ensure;
use bounds::Bounds;

fn main(rt: HostRuntime) -> anyhow::Result<()> {
    run(&rt)
}

fn run(rt: &HostRuntime) -> anyhow::Result<()> {
    let bounds = Bounds::read(rt)?;
    noticed::tell_noticed(rt)?;
    let mut differences = bans::tell_bans(rt, bounds.drawn)?;
    for places in 2..=bounds.places {
        let more = floors::tell_floors(rt, places)?;
        differences = differences.saturating_add(more);
    }
    ensure!(differences == 0, "{differences} differences");
    Ok(())
}

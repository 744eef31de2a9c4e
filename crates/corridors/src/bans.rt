// Floors, trips and bans that are drawn, with all corridors on them.
use crate::arrangement::runs;
use crate::compare::Comparison;
use crate::draw::{Draw, Drawn};
use crate::lists::{IN_BOTH_ORDERS, ticks_of_walks};
use crate::operands::Ranges;
use crate::setting::{Case, Setting};
use crate::walks::all_walks;
use floor::Cart;
use std::io;

const SEED: u64 = 42;

// Goes through so many: how many differences there are.
pub fn tell_bans(rt: &HostRuntime, cases: u32) -> anyhow::Result<u64> {
    let heap = rt.alloc();
    let runs = runs(heap, 6)?;
    let mut comparison = Comparison::new(rt)?;
    let mut draw = Draw::new(SEED);
    let mut corridors = 0usize;
    for _ in 0..cases {
        let drawn = draw.drawn(heap)?;
        let setting = Setting::new(heap, drawn.floor, &runs)?;
        corridors = corridors.saturating_add(setting.corridors.len());
        try_corridors(&mut comparison, &drawn, &setting)?;
    }
    let counts = comparison.counts;
    println!(rt; "under drawn bans: {cases} floors, {corridors} corridors")?;
    println!(rt; "    all corridors: {counts}")?;
    Ok(counts.differences)
}

fn try_corridors<'a>(
    comparison: &mut Comparison,
    drawn: &'a Drawn,
    setting: &'a Setting,
) -> io::Result<()> {
    let case = Case {
        setting,
        trips: drawn.trips,
        bans: &drawn.bans,
        walks: [
            all_walks(&drawn.floor, &drawn.trips, &drawn.bans, Cart(0)),
            all_walks(&drawn.floor, &drawn.trips, &drawn.bans, Cart(1)),
        ],
    };
    for c in &setting.corridors {
        let ranges = Ranges {
            carts: &IN_BOTH_ORDERS,
            places: &[(c.first, c.second)],
            lengths: &[c.length],
            ticks: ticks_of_walks(),
        };
        comparison.compare_all(&case, &ranges)?;
    }
    Ok(())
}

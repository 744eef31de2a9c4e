// Whether a comparison notices the differences that are planted.
use crate::arrangement::runs;
use crate::compare::Comparison;
use crate::lists::{ALL_CARTS, LENGTHS, all_places, ticks_of_walks};
use crate::operands::Ranges;
use crate::planted::Planted;
use crate::setting::{Case, Setting};
use crate::small_floor::SmallFloor;
use crate::walks::all_walks;
use anyhow::ensure;
use floor::{Cart, Place};
use motion::Trip;

// Three places in a line, and a cart at each end.
const PLACES: u16 = 3;

const LINE: usize = 5;

const TRIPS: [Trip; 2] = [
    Trip {
        start: Place(0),
        target: Place(2),
    },
    Trip {
        start: Place(2),
        target: Place(0),
    },
];

const ALL: [Planted; 3] = [
    Planted::LaterTick,
    Planted::BansExchanged,
    Planted::NumberOfAnother,
];

pub fn tell_noticed(rt: &HostRuntime) -> anyhow::Result<()> {
    println!(rt; "planted on three places in a line:")?;
    for planted in ALL {
        let differences = differences(rt, planted)?;
        println!(rt; "    {planted}: {differences} differences")?;
        ensure!(differences > 0, "a difference is not noticed");
    }
    Ok(())
}

// How many differences are noticed.
fn differences(rt: &HostRuntime, planted: Planted) -> anyhow::Result<u64> {
    let heap = rt.alloc();
    let floor = SmallFloor::new(PLACES, LINE);
    let setting = Setting::new(heap, floor, &runs(heap, PLACES)?)?;
    let pairs = all_places(heap, PLACES)?;
    let case = Case {
        setting: &setting,
        trips: TRIPS,
        bans: &[],
        walks: [
            all_walks(&floor, &TRIPS, &[], Cart(0)),
            all_walks(&floor, &TRIPS, &[], Cart(1)),
        ],
    };
    let mut comparison = Comparison::planted(rt, planted)?;
    let ranges = Ranges {
        carts: &ALL_CARTS,
        places: &pairs,
        lengths: &LENGTHS,
        ticks: ticks_of_walks(),
    };
    comparison.compare_all(&case, &ranges)?;
    Ok(comparison.counts.differences)
}

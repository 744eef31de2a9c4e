// Every floor of so many places, with two carts and no bans.
use crate::arrangement::{Arrangement, arrangements, runs};
use crate::compare::Comparison;
use crate::corridor::Corridor;
use crate::lists::{ALL_CARTS, IN_ORDER, LENGTHS, all_places, ticks_for, ticks_on};
use crate::operands::Ranges;
use crate::setting::{Case, Setting};
use crate::small_floor::{SmallFloor, first_of_each};
use crate::walks::{Walks, all_walks};
use floor::{Cart, Place};
use motion::Trip;
use std::alloc::{AllocError, Global};
use std::io;

// Goes through one floor of those that differ only in their places' numbers: how many differences there are.
pub fn tell_floors(rt: &HostRuntime, places: u16) -> anyhow::Result<u64> {
    let heap = rt.alloc();
    let floors = first_of_each(heap, places)?;
    let mut tour = Tour::new(rt, places)?;
    for floor in &floors {
        tour.go_through(*floor)?;
    }
    let corridors = tour.corridors;
    let all = tour.all_operands.counts;
    let starts = tour.all_starts.counts;
    println!(rt;
        "places {places}: {} floors, {corridors} corridors",
        floors.len()
    )?;
    println!(rt; "    all operands: {all}")?;
    println!(rt; "    all starts: {starts}")?;
    Ok(all.differences.saturating_add(starts.differences))
}

#[derive(Drop)]
struct Tour<'a> {
    heap: Global,
    // what may be a corridor
    runs: Vec<Arrangement>,
    // where two carts may start
    starts: Vec<Arrangement>,
    pairs: Vec<(Place, Place)>,
    corridors: usize,
    // from one pair of starts with all operands
    all_operands: Comparison<'a>,
    // from all pairs of starts with all corridors
    all_starts: Comparison<'a>,
}

impl<'a> Tour<'a> {
    fn new(rt: &'a HostRuntime, places: u16) -> anyhow::Result<Tour<'a>> {
        let heap = rt.alloc();
        Ok(Tour {
            heap,
            runs: runs(heap, places)?,
            starts: arrangements(heap, places, 2)?,
            pairs: all_places(heap, places)?,
            corridors: 0,
            all_operands: Comparison::new(rt)?,
            all_starts: Comparison::new(rt)?,
        })
    }

    fn go_through(&mut self, floor: SmallFloor) -> anyhow::Result<()> {
        let setting = Setting::new(self.heap, floor, &self.runs)?;
        let walks = walks_from_each(self.heap, &floor)?;
        self.corridors = self.corridors.saturating_add(setting.corridors.len());
        self.try_operands(&setting, &walks)?;
        for c in &setting.corridors {
            self.try_starts(&setting, &walks, c)?;
        }
        Ok(())
    }

    // All operands, from the first pair of starts.
    fn try_operands(&mut self, setting: &Setting, walks: &[Walks]) -> io::Result<()> {
        let ranges = Ranges {
            carts: &ALL_CARTS,
            places: &self.pairs,
            lengths: &LENGTHS,
            ticks: ticks_on(setting.floor.places),
        };
        if let Some(starts) = self.starts.first()
            && let Some(case) = case_of(setting, starts, walks)
        {
            self.all_operands.compare_all(&case, &ranges)?;
        }
        Ok(())
    }

    // One corridor, from all pairs of starts. These are gone through in both orders, so the carts need not be.
    fn try_starts(&mut self, setting: &Setting, walks: &[Walks], c: &Corridor) -> io::Result<()> {
        let ranges = Ranges {
            carts: &IN_ORDER,
            places: &[(c.first, c.second)],
            lengths: &[c.length],
            ticks: ticks_for(c.length),
        };
        for starts in &self.starts {
            if let Some(case) = case_of(setting, starts, walks) {
                self.all_starts.compare_all(&case, &ranges)?;
            }
        }
        Ok(())
    }
}

// For each place the walks that start there.
fn walks_from_each(heap: Global, floor: &SmallFloor) -> Result<Vec<Walks>, AllocError> {
    let mut walks = Vec::new(heap);
    for p in 0..floor.places {
        walks.push(all_walks(floor, &[rest_at(Place(p))], &[], Cart(0)))?;
    }
    Ok(walks)
}

// Two carts at these starts, without bans: their targets are of no account.
fn case_of<'b>(setting: &'b Setting, starts: &[Place], walks: &[Walks]) -> Option<Case<'b>> {
    let [p, q] = *starts else {
        return None;
    };
    let first = *walks.get(usize::from(p))?;
    let second = *walks.get(usize::from(q))?;
    Some(Case {
        setting,
        trips: [rest_at(p), rest_at(q)],
        bans: &[],
        walks: [first, second],
    })
}

fn rest_at(p: Place) -> Trip {
    Trip {
        start: p,
        target: p,
    }
}

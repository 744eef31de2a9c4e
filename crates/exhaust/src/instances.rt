// All instances of so many carts on floors of so many places.
use crate::arrangement::{Arrangement, arrangements};
use crate::counts::{Counts, add};
use crate::instance::{Finding, Instance};
use crate::joint::{JointStep, joint_steps};
use crate::least_routes::LeastRoutes;
use crate::planted::Planted;
use crate::small_floor::SmallFloor;
use crate::sums::{LeastSums, NONE};
use floor::Place;
use maps::ListMap;
use motion::Trip;
use search::Workspace;
use std::alloc::{AllocError, Global};
use std::io;

// Goes through the instances of so many carts on the floors of these numbers, and tells each disagreement that is not
// planted.
pub fn go_through(
    rt: &HostRuntime,
    carts: u16,
    places: u16,
    floors: &[usize],
    splits: u32,
    planted: Planted,
) -> anyhow::Result<Counts> {
    let stands = arrangements(rt.alloc(), places, carts)?;
    let mut scene = Scene {
        rt,
        work: Workspace::new(rt.alloc())?,
        stands: &stands,
        splits,
        planted,
        counts: Counts::default(),
    };
    for number in floors {
        scene.check_floor(SmallFloor::new(places, *number))?;
    }
    Ok(scene.counts)
}

// One floor, as it is, as a map, and with the steps of all carts on it.
#[derive(Drop)]
struct Setting {
    floor: SmallFloor,
    map: ListMap,
    steps: Vec<JointStep>,
}

#[derive(Drop)]
struct Scene<'a> {
    rt: &'a HostRuntime,
    work: Workspace,
    stands: &'a [Arrangement],
    splits: u32,
    planted: Planted,
    counts: Counts,
}

impl Scene<'_> {
    // All instances on a floor.
    fn check_floor(&mut self, floor: SmallFloor) -> anyhow::Result<()> {
        let heap = self.rt.alloc();
        let setting = Setting {
            floor,
            map: floor.list_map(heap)?,
            steps: joint_steps(heap, &floor, self.stands)?,
        };
        for targets in self.stands {
            self.check_targets(&setting, targets)?;
        }
        Ok(())
    }

    // All instances with these targets.
    fn check_targets(&mut self, setting: &Setting, targets: &[Place]) -> anyhow::Result<()> {
        let heap = self.rt.alloc();
        let sums = LeastSums::new(heap, self.stands, &setting.steps, targets)?;
        let found = LeastRoutes {
            stands: self.stands,
            steps: &setting.steps,
            sums: &sums,
        };
        for (start, starts) in self.stands.iter().enumerate() {
            let trips = trips(heap, starts, targets)?;
            self.check_instance(setting, &found, start, &trips)?;
        }
        Ok(())
    }

    // One instance.
    fn check_instance(
        &mut self,
        setting: &Setting,
        found: &LeastRoutes,
        start: usize,
        trips: &[Trip],
    ) -> anyhow::Result<()> {
        add(&mut self.counts.instances, 1);
        let instance = Instance {
            floor: &setting.floor,
            map: &setting.map,
            trips,
            splits: self.splits,
            planted: self.planted,
        };
        let sum = found.least(start);
        if sum == NONE && !found.sums.cut {
            add(&mut self.counts.unsolved, 1);
            return Ok(());
        }
        let finding = instance.finding(self.rt.alloc(), &mut self.work, found, start)?;
        self.count(setting, trips, finding)?;
        Ok(())
    }

    fn count(&mut self, setting: &Setting, trips: &[Trip], finding: Finding) -> io::Result<()> {
        let counts = &mut self.counts;
        add(&mut counts.splits, finding.splits);
        add(&mut counts.closings, finding.closings);
        counts.most_splits = counts.most_splits.max(finding.splits);
        add(&mut counts.least, u64::from(finding.least));
        add(&mut counts.cheaper, u64::from(finding.cheaper));
        add(&mut counts.other_sum, u64::from(finding.other_sum));
        add(&mut counts.in_conflict, u64::from(finding.in_conflict));
        if finding.without_tree {
            add(&mut counts.without_tree, 1);
            tell_instance(self.rt, setting, trips, "no tree")?;
        }
        if let Some(what) = finding.disagreement {
            add(&mut counts.disagreements, 1);
            if self.planted == Planted::Nothing {
                print!(self.rt; "disagreement ")?;
                tell_instance(self.rt, setting, trips, what)?;
            }
        }
        Ok(())
    }
}

fn trips(heap: Global, starts: &[Place], targets: &[Place]) -> Result<Vec<Trip>, AllocError> {
    let mut trips = Vec::new(heap);
    for (start, target) in starts.iter().zip(targets) {
        trips.push(Trip {
            start: *start,
            target: *target,
        })?;
    }
    Ok(trips)
}

fn tell_instance(
    rt: &HostRuntime,
    setting: &Setting,
    trips: &[Trip],
    what: &str,
) -> io::Result<()> {
    let SmallFloor { places, number, .. } = setting.floor;
    print!(rt; "on floor {number} of {places} places, trips")?;
    for trip in trips {
        print!(rt; " {}-{}", trip.start, trip.target)?;
    }
    println!(rt; ": {what}")
}

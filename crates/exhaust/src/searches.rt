// Least lengths under drawn bans: what a branch answers, beside all walks and the search of this program.
use crate::all_walks::{AllWalks, STEPS};
use crate::cart_route::CartRoute;
use crate::draw::{Draw, Drawn};
use crate::least_routes::steps_of;
use anyhow::ensure;
use floor::{Cart, Tick};
use maps::ListMap;
use motion::Length;
use search::{Branch, Workspace};
use std::io;

const SEED: u64 = 42;

// How many searches are tried with a difference planted.
const FEW: u32 = 100;

const CART: Cart = Cart(0);

// Which length is taken to be one more, to see that the comparison notices it.
#[derive(Clone, Copy, PartialEq, Eq)]
enum Planted {
    Nothing,
    // that of the search of this program
    InRoutes,
    // that of the walks which the branch's answers are compared with
    InWalks,
}

// Compares so many searches, and tells how many answered a length: how many disagreements there are.
pub fn compare(rt: &HostRuntime, searches: u32) -> anyhow::Result<u64> {
    let Compared {
        arrived,
        disagreements,
    } = compare_all(rt, searches, Planted::Nothing)?;
    println!(rt;
        "{searches} searches under drawn bans: {arrived} with a least length of at most {STEPS}, {disagreements} disagreements"
    )?;
    Ok(disagreements)
}

// Each of the two comparisons of some searches has to notice a difference that is planted.
pub fn tell_planted(rt: &HostRuntime) -> anyhow::Result<()> {
    let routes = compare_all(rt, FEW, Planted::InRoutes)?.disagreements;
    let walks = compare_all(rt, FEW, Planted::InWalks)?.disagreements;
    println!(rt; "planted in {FEW} searches:")?;
    println!(rt; "    this program's own search one longer: {routes} disagreements")?;
    println!(rt; "    the branch's search one shorter: {walks} disagreements")?;
    ensure!(routes > 0 && walks > 0, "a disagreement is not noticed");
    Ok(())
}

// How many searches had a least length, and how many disagreements there are.
#[derive(Clone, Copy)]
struct Compared {
    arrived: u64,
    disagreements: u64,
}

fn compare_all(rt: &HostRuntime, searches: u32, planted: Planted) -> anyhow::Result<Compared> {
    let mut scene = Scene {
        rt,
        work: Workspace::new(rt.alloc())?,
        planted,
        arrived: 0,
        disagreements: 0,
    };
    let mut draw = Draw::new(SEED);
    for _ in 0..searches {
        let drawn = draw.drawn(rt.alloc())?;
        scene.compare(&drawn)?;
    }
    Ok(Compared {
        arrived: scene.arrived,
        disagreements: scene.disagreements,
    })
}

#[derive(Drop)]
struct Scene<'a> {
    rt: &'a HostRuntime,
    work: Workspace,
    planted: Planted,
    arrived: u64,
    disagreements: u64,
}

impl Scene<'_> {
    fn compare(&mut self, drawn: &Drawn) -> anyhow::Result<()> {
        let map = drawn.floor.list_map(self.rt.alloc())?;
        let walks = least_walk(drawn);
        if walks.is_some() {
            self.arrived = self.arrived.saturating_add(1);
        }
        let own = self.later_in(Planted::InRoutes, self.least_route(drawn)?);
        let in_branch = self.later_in(Planted::InWalks, walks);
        if own != walks || !self.answers(drawn, &map, in_branch) {
            self.disagreements = self.disagreements.saturating_add(1);
            if self.planted == Planted::Nothing {
                tell_disagreement(self.rt, drawn)?;
            }
        }
        Ok(())
    }

    // The length, one more where that is planted.
    fn later_in(&self, planted: Planted, length: Option<Tick>) -> Option<Tick> {
        if self.planted == planted {
            length.map(|n| Tick(n.0.saturating_add(1)))
        } else {
            length
        }
    }

    fn least_route(&self, drawn: &Drawn) -> anyhow::Result<Option<Tick>> {
        let search = CartRoute {
            floor: &drawn.floor,
            trips: &drawn.trips,
            bans: &drawn.bans,
            cart: CART,
            trip: drawn.trips[0],
        };
        let route = search.least(self.rt.alloc(), STEPS + 1)?;
        Ok(route.map(|route| Tick(steps_of(&route))))
    }

    // Whether a branch answers so below each limit.
    fn answers(&mut self, drawn: &Drawn, map: &ListMap, walks: Option<Tick>) -> bool {
        let branch = Branch {
            map,
            trips: &drawn.trips,
            bans: &drawn.bans,
        };
        for limit in 0..=STEPS + 1 {
            let length = branch.least_length(&mut self.work, CART, Length(Tick(limit)));
            if length != walks.filter(|n| n.0 < limit).map(Length) {
                return false;
            }
        }
        true
    }
}

fn least_walk(drawn: &Drawn) -> Option<Tick> {
    let walks = AllWalks {
        floor: &drawn.floor,
        trips: &drawn.trips,
        bans: &drawn.bans,
        cart: CART,
        start: drawn.trips[0].start,
    };
    walks.least()
}

fn tell_disagreement(rt: &HostRuntime, drawn: &Drawn) -> io::Result<()> {
    let floor = drawn.floor.number;
    let places = drawn.floor.places;
    let [first, second] = drawn.trips;
    println!(rt;
        "disagreement on floor {floor} of {places} places, trips {}-{} {}-{}",
        first.start, first.target, second.start, second.target
    )?;
    for ban in &drawn.bans {
        println!(rt; "    {ban}")?;
    }
    Ok(())
}

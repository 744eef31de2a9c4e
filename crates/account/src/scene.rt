ghost use Rattle.std.specs.Prelude.{◌≤◌, length};

use crate::routes::Shown;
use checking::Check;
use floor::FloorMap;
use motion::Trip;
use search::Branch;
use splits::OwnRules;
use std::alloc::Global;

// What reasons are found from, beside the check: the floor, the trips and the claim, and the routes shown so far.
#[derive(Drop)]
pub struct Scene<'a, M> {
    pub map: &'a M,
    pub trips: &'a [Trip],
    pub claim: u16,
    pub shown: Vec<Shown<'a>>,
    // each trip has its cart
    ghost few: { length trips.now ≤ 256 },
}

impl<'a, M: FloorMap> Scene<'a, M> {
    pub fn new(heap: Global, map: &'a M, trips: &'a [Trip], claim: u16) -> Scene<'a, M>
        requires { length trips.now ≤ 256 }
    {
        Scene {
            map,
            trips,
            claim,
            shown: Vec::new(heap),
        }
    }

    // The check's current branch, if one is open.
    pub fn branch<'b>(&'b self, check: &'b Check<'_, M, OwnRules>) -> Option<Branch<'b, M>> {
        let bans = check.current_bans()?;
        Some(Branch {
            map: self.map,
            trips: self.trips,
            bans,
        })
    }
}

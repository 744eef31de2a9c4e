// What the check says of one instance, beside what is found here.
use crate::least_routes::{LeastRoutes, Route};
use crate::plan::{Outcome, Plan};
use crate::planted::Planted;
use crate::small_floor::SmallFloor;
use crate::tree::{NoTree, TreeCall, TreeSearch};
use maps::ListMap;
use motion::Trip;
use search::Workspace;
use std::alloc::{AllocError, Global};
use tally::Verdict;

// The depth that the check allows.
const MOST_DEPTH: u8 = 64;

// Carts' trips on a floor.
#[derive(Drop)]
pub struct Instance<'a> {
    pub floor: &'a SmallFloor,
    pub map: &'a ListMap,
    pub trips: &'a [Trip],
    // how many splits a tree may have
    pub splits: u32,
    pub planted: Planted,
}

// What came of an instance.
#[derive(Clone, Copy, Default)]
pub struct Finding {
    // the least sum was settled as least
    pub least: bool,
    // the same tree was refused for a sum one higher
    pub cheaper: bool,
    // the same tree settled as another sum than one lower
    pub other_sum: bool,
    // shorter routes were refused for a conflict
    pub in_conflict: bool,
    // there was no tree of so few splits
    pub without_tree: bool,
    pub splits: u64,
    pub closings: u64,
    pub disagreement: Option<&'static str>,
}

impl Instance<'_> {
    // Finds routes and a tree for the least sum, and has them checked.
    pub fn finding(
        &self,
        heap: Global,
        work: &mut Workspace,
        found: &LeastRoutes,
        start: usize,
    ) -> Result<Finding, AllocError> {
        if found.sums.cut {
            return Ok(Finding::of("the joint search did not end"));
        }
        let sum = found.least(start);
        let Some(routes) = found.routes(heap, start)? else {
            return Ok(Finding::of("no routes for the least sum"));
        };
        let mut search = self.search(heap, sum);
        let shorter = search.least_routes()?;
        match search.close_branch(MOST_DEPTH) {
            Ok(()) => Ok(self.checked(work, sum, &routes, &search.tree, shorter)),
            Err(NoTree::TooLarge) => Ok(Finding {
                without_tree: true,
                ..Finding::default()
            }),
            Err(NoTree::Cheaper) => Ok(Finding::of("routes that sum below the least sum")),
            Err(NoTree::NoMemory) => Err(AllocError),
        }
    }

    fn search(&self, heap: Global, claim: u16) -> TreeSearch<'_> {
        TreeSearch {
            heap,
            floor: self.floor,
            trips: self.trips,
            claim,
            bans: Vec::new(heap),
            tree: Vec::new(heap),
            splits: self.splits,
        }
    }

    // What the check says of the sum, of one more and of one less; and of shorter routes, where there are any: least
    // routes of the carts, each by itself.
    fn checked(
        &self,
        work: &mut Workspace,
        sum: u16,
        routes: &[Route],
        tree: &[TreeCall],
        shorter: Option<Vec<Route>>,
    ) -> Finding {
        let plan = self.plan(routes, tree);
        let shorter = shorter.map(|routes| self.plan(&routes, &[]).outcome(work, sum));
        let outcomes = Outcomes {
            at_sum: plan.outcome(work, sum),
            above: plan.outcome(work, sum.saturating_add(1)),
            below: sum.checked_sub(1).map(|less| plan.outcome(work, less)),
            shorter,
        };
        Finding::new(usize::from(sum), &self.planted.replaced(outcomes))
    }

    fn plan<'b>(&'b self, routes: &'b [Route], tree: &'b [TreeCall]) -> Plan<'b> {
        Plan {
            map: self.map,
            trips: self.trips,
            routes,
            tree,
        }
    }
}

// What comes of the checks of an instance.
#[derive(Clone, Copy)]
pub struct Outcomes {
    pub at_sum: Outcome,
    pub above: Outcome,
    pub below: Option<Outcome>,
    pub shorter: Option<Outcome>,
}

impl Finding {
    fn of(disagreement: &'static str) -> Finding {
        Finding {
            disagreement: Some(disagreement),
            ..Finding::default()
        }
    }

    fn new(sum: usize, outcomes: &Outcomes) -> Finding {
        let (splits, closings) = outcomes.at_sum.counts();
        Finding {
            least: outcomes.at_sum.is_taken(Verdict::Least(sum)),
            cheaper: outcomes.above.is_cheaper(),
            other_sum: outcomes
                .below
                .is_some_and(|outcome| outcome.is_taken(Verdict::OtherSum(sum))),
            in_conflict: outcomes
                .shorter
                .is_some_and(|outcome| outcome.is_in_conflict()),
            splits,
            closings,
            disagreement: outcomes.fault(sum),
            ..Finding::default()
        }
    }
}

impl Outcomes {
    // What is not as it has to be. Nothing is below 0, and no routes are shorter where the least ones do not conflict.
    fn fault(&self, sum: usize) -> Option<&'static str> {
        if !self.at_sum.is_taken(Verdict::Least(sum)) {
            return Some("the least sum is not settled as least");
        }
        if !self.above.is_cheaper() {
            return Some("one more is not refused as cheaper");
        }
        if self
            .below
            .is_some_and(|outcome| !outcome.is_taken(Verdict::OtherSum(sum)))
        {
            return Some("one less is not settled as another sum");
        }
        if self
            .shorter
            .is_some_and(|outcome| !outcome.is_in_conflict())
        {
            return Some("shorter routes are not refused for a conflict");
        }
        None
    }
}

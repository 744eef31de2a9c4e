// Plans, which show routes and give a tree, and what the check says of them.
use crate::carts::CARTS;
use crate::least_routes::Route;
use crate::tree::TreeCall;
use checking::{Check, Terms, open};
use maps::ListMap;
use motion::Trip;
use search::Workspace;
use splits::{SplitRule, own_rules};
use tally::{Refusal, Standing, Verdict};

// Routes to be shown and a tree of calls, for trips on a floor.
#[derive(Drop)]
pub struct Plan<'a> {
    pub map: &'a ListMap,
    pub trips: &'a [Trip],
    pub routes: &'a [Route],
    pub tree: &'a [TreeCall],
}

// The answer to the calls, up to the first that is refused, and what the check is settled with.
#[derive(Clone, Copy)]
pub struct Outcome {
    pub answer: Result<(), Refusal>,
    pub standing: Option<Standing>,
}

impl Outcome {
    // The splits and closings that the check counted.
    pub fn counts(&self) -> (u64, u64) {
        match self.standing {
            Some(standing) => (standing.splits as u64, standing.closings as u64),
            None => (0, 0),
        }
    }

    // Whether all calls were taken, and the check settled so.
    pub fn is_taken(&self, verdict: Verdict) -> bool {
        self.answer.is_ok()
            && self
                .standing
                .is_some_and(|standing| standing.verdict == verdict)
    }

    // Whether a closing was refused for a cheaper set, and the check settled with an open branch.
    pub fn is_cheaper(&self) -> bool {
        self.answer == Err(Refusal::CheaperSet)
            && self
                .standing
                .is_some_and(|standing| matches!(standing.verdict, Verdict::Open(_)))
    }

    // Whether a call, which can only be a show, was refused for a conflict.
    pub fn is_in_conflict(&self) -> bool {
        self.answer == Err(Refusal::InConflict)
    }
}

impl Plan<'_> {
    // Shows the routes, makes the calls of the tree and settles.
    pub fn outcome(&self, work: &mut Workspace, claim: u16) -> Outcome {
        let rules = own_rules();
        let (mut check, card) = open(Terms {
            map: self.map,
            rules: &rules,
            trips: self.trips,
            claim,
            card: 1,
        });
        let answer = make_calls(&mut check, work, self.routes, self.tree);
        Outcome {
            answer,
            standing: check.settle(card).ok(),
        }
    }
}

fn make_calls<R: SplitRule>(
    check: &mut Check<'_, ListMap, R>,
    work: &mut Workspace,
    routes: &[Route],
    tree: &[TreeCall],
) -> Result<(), Refusal> {
    show_all(check, routes)?;
    for call in tree {
        match *call {
            TreeCall::Split(split) => check.split(work, split.letter(), &split.operands())?,
            TreeCall::Close => check.close(work)?,
        }
    }
    Ok(())
}

fn show_all<R: SplitRule>(
    check: &mut Check<'_, ListMap, R>,
    routes: &[Route],
) -> Result<(), Refusal> {
    for (cart, route) in CARTS.iter().zip(routes) {
        check.show(*cart, route)?;
    }
    Ok(())
}

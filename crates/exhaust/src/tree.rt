// A tree of splits for a claim, found by conflict-based search.
use crate::cart_route::CartRoute;
use crate::carts::CARTS;
use crate::conflict::first_split;
use crate::least_routes::{Route, steps_of};
use crate::small_floor::SmallFloor;
use crate::split::Split;
use motion::{Ban, Trip};
use std::alloc::{AllocError, Global};

// A call of the tree on a check.
#[derive(Clone, Copy)]
pub enum TreeCall {
    Split(Split),
    Close,
}

// Why there is no tree.
#[derive(Clone, Copy)]
pub enum NoTree {
    // the branches lie too deep, or are too many
    TooLarge,
    // routes without conflict that sum below the claim
    Cheaper,
    NoMemory,
}

impl From<AllocError> for NoTree {
    fn from(_e: AllocError) -> NoTree {
        NoTree::NoMemory
    }
}

// The search for a tree, with the bans of the branch that it is at.
#[derive(Drop)]
pub struct TreeSearch<'a> {
    pub heap: Global,
    pub floor: &'a SmallFloor,
    pub trips: &'a [Trip],
    pub claim: u16,
    pub bans: Vec<Ban>,
    pub tree: Vec<TreeCall>,
    // how many more splits there may be
    pub splits: u32,
}

impl TreeSearch<'_> {
    // Adds the calls that close the branch, with at most so many more splits one under the other.
    pub fn close_branch(&mut self, depth: u8) -> Result<(), NoTree> {
        let Some(routes) = self.least_routes()? else {
            return self.push(TreeCall::Close);
        };
        let split = first_split(&routes).ok_or(NoTree::Cheaper)?;
        let depth = depth.checked_sub(1).ok_or(NoTree::TooLarge)?;
        self.splits = self.splits.checked_sub(1).ok_or(NoTree::TooLarge)?;
        self.push(TreeCall::Split(split))?;
        let [left, right] = split.sides();
        self.forbid(left)?;
        self.close_branch(depth)?;
        let _ = self.bans.pop();
        self.forbid(right)?;
        self.close_branch(depth)?;
        let _ = self.bans.pop();
        Ok(())
    }

    fn push(&mut self, call: TreeCall) -> Result<(), NoTree> {
        self.tree.push(call).map_err(AllocError::from)?;
        Ok(())
    }

    fn forbid(&mut self, ban: Ban) -> Result<(), NoTree> {
        self.bans.push(ban).map_err(AllocError::from)?;
        Ok(())
    }

    // A least route of each cart in the branch, if these sum below the claim.
    pub fn least_routes(&self) -> Result<Option<Vec<Route>>, AllocError> {
        let mut routes = Vec::new(self.heap);
        let mut left = self.claim;
        for (trip, cart) in self.trips.iter().zip(&CARTS) {
            let search = CartRoute {
                floor: self.floor,
                trips: self.trips,
                bans: &self.bans,
                cart: *cart,
                trip: *trip,
            };
            let Some(route) = search.least(self.heap, left)? else {
                return Ok(None);
            };
            left = left.saturating_sub(steps_of(&route));
            routes.push(route)?;
        }
        Ok(Some(routes))
    }
}

ghost use Rattle.std.specs.Prelude.{◌≡◌, ◌<◌, true, Some, None, ◌∷◌, if◌then◌else◌, length, drop};
ghost use Rattle.checking.specs.OpenBranches.{branches_of, current, current_bans};
ghost use Rattle.std.specs.Option.{option_copied};
ghost use Rattle.tally.specs.Tallies.{at_start, under};

use crate::branches::Branches;
use arrayvec::ArrayVec;
use floor::{Cart, Tick};
use motion::Ban;

impl Branches {
    // One branch without bans.
    pub fn new() -> Branches
        ensures { branches_of result ≡ at_start.branches }
    {
        let unused = Ban::Late {
            cart: Cart(0),
            tick: Tick(0),
        };
        Branches {
            bans: [unused; 64],
            others: ArrayVec::new(),
            open: true,
        }
    }

    // The bans on the way down to the current branch, if there is one.
    pub fn current(&self) -> Option<&[Ban]>
        ensures { option_copied result ≡ (if self.now.open then Some (current_bans self.now) else None) }
    {
        self.open.then_some(&self.bans[..self.others.len()])
    }

    // How many splits the current branch lies under.
    pub fn depth(&self) -> usize
        ensures { result ≡ (current self.now).depth }
    {
        self.others.len()
    }

    // How many branches are open: a loop, since a `filter` counts them in four times the instructions.
    pub fn count(&self) -> usize
        ensures { result ≡ length (branches_of self.now) }
    {
        if !self.open {
            return 0;
        }
        let mut count = 1;
        for other in self.others.iter() {
            if other.is_some() {
                count += 1;
            }
        }
        count
    }

    // Turns the current branch into two, and goes down to the left one.
    pub fn split(&mut self, left: Ban, right: Ban)
        requires { (self.old.open ≡ true) × ((current self.old).depth < 64) }
        ensures { branches_of self.new ≡ under (current self.old) left ∷ (under (current self.old) right ∷ drop 1 (branches_of self.old)) }
    {
        let depth = self.others.len();
        self.bans[depth] = left;
        self.others.push(Some(right));
    }

    // Leaves the current branch: goes up to the nearest split whose right side is still to come, and down that side.
    pub fn close(&mut self)
        requires { self.old.open ≡ true }
        ensures { branches_of self.new ≡ drop 1 (branches_of self.old) }
    {
        while let Some(other) = self.others.pop() {
            if let Some(right) = other {
                let depth = self.others.len();
                self.bans[depth] = right;
                self.others.push(None);
                return;
            }
        }
        self.open = false;
    }
}

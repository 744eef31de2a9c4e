ghost use Rattle.std.specs.Prelude.{◌≡◌, ◌<◌, ◌≤◌, true, false, ◌||◌, length, drop, nat_le};
ghost use Rattle.checking.specs.Books.{tally_in};
ghost use Rattle.checking.specs.OpenBranches.{current};
ghost use Rattle.floor.specs.Numbers.{numbers};
ghost use Rattle.tally.specs.Tallies.{at_start, is_shown, with_closing, with_route, with_split};

use crate::book::Book;
use crate::branches::Branches;
use crate::routes::Routes;
use floor::{Cart, Place};
use motion::Ban;

impl Book {
    pub fn new() -> Book
        ensures { tally_in result ≡ at_start }
    {
        Book {
            branches: Branches::new(),
            routes: Routes::new(),
            splits: 0,
            closings: 0,
        }
    }

    // Whether the current branch, or the check, has had all the splits that it may have.
    pub fn is_full(&self) -> bool
        ensures { result ≡ (nat_le 64 (current self.now.branches).depth || nat_le 1000000 self.now.splits) }
    {
        self.branches.depth() >= 64 || self.splits >= 1_000_000
    }

    pub fn show(&mut self, cart: Cart, places: &[Place])
        requires { (cart.0 < 16) × ((length places.now ≤ 256) × (is_shown (tally_in self.old).shown cart.0 ≡ false)) }
        ensures { tally_in self.new ≡ with_route (tally_in self.old) cart.0 (numbers places.now) }
    {
        self.routes.add(cart, places);
    }

    pub fn split(&mut self, left: Ban, right: Ban)
        requires { (self.old.branches.open ≡ true) × (((current self.old.branches).depth < 64) × (self.old.splits < 1000000)) }
        ensures { tally_in self.new ≡ with_split (tally_in self.old) (current self.old.branches) (drop 1 (tally_in self.old).branches) left right }
    {
        self.branches.split(left, right);
        self.splits += 1;
    }

    pub fn close(&mut self)
        requires { self.old.branches.open ≡ true }
        ensures { tally_in self.new ≡ with_closing (tally_in self.old) (drop 1 (tally_in self.old).branches) }
    {
        self.branches.close();
        self.closings += 1;
    }
}

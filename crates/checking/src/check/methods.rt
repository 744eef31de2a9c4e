ghost use Rattle.std.specs.Prelude.{◌≡◌, IfOk, IfErr, OnErr, length};
ghost use Rattle.checking.specs.Books.{tally_in};
ghost use Rattle.checking.specs.CallsMade.{meant};
ghost use Rattle.checking.specs.Checks.{opening_of, Answers, IsCurrent, RefusesBranches};
ghost use Rattle.checking.specs.OpenBranches.{branches_of};
ghost use Rattle.floor.specs.Numbers.{numbers};
ghost use Rattle.std.specs.Option.{option_copied};
ghost use Rattle.tally.specs.CallAnswers.{current_bans};
ghost use Rattle.tally.specs.Calls.{show, split, close};
ghost use Rattle.tally.specs.Standings.{settle, standing};
ghost use Rattle.tally.specs.Tallies.{at_start};

use crate::book::Book;
use crate::call::Call;
use crate::check::{Card, Check};
use crate::sums::{shown_sum, unshown};
use crate::terms::Terms;
use floor::{Cart, FloorMap, Place};
use motion::{Ban, check_route};
use search::{Branch, Workspace};
use splits::SplitRule;
use tally::{Foreign, Refusal, Settlement, Standing, Verdict};

// A check at its start, one branch open and nothing banned, and its card.
pub fn open<'a, M: FloorMap, R: SplitRule>(terms: Terms<'a, M, R>) -> (Check<'a, M, R>, Card)
    ensures starts { tally_in result.0.book ≡ at_start }
    ensures as_given { (result.0.terms ≡ terms.entry) × (result.1.number ≡ terms.entry.card) }
{
    let number = terms.card;
    let book = Book::new();
    (Check { terms, book }, Card { number })
}

impl<'a, M: FloorMap, R: SplitRule> Check<'a, M, R> {
    // Takes the places as the route of the cart.
    pub fn show(&mut self, cart: Cart, places: &[Place]) -> Result<(), Refusal>
        ensures answers { Answers (opening_of M.FloorMap.floor R.SplitRule.rules self.old.terms) self.old.book self.new.book (show cart.0 (numbers places.now)) result }
        ensures unchanged { OnErr result (self.new ≡ self.old) }
        ensures still { self.new.terms ≡ self.old.terms }
    {
        self.terms.opened()?;
        let trip = self.terms.trip(cart)?;
        if self.book.routes.has(cart) {
            return Err(Refusal::Shown);
        }
        check_route(self.terms.map, trip, places)?;
        if self.book.routes.conflict(places) {
            return Err(Refusal::InConflict);
        }
        self.book.show(cart, places);
        Ok(())
    }

    // The bans of the current branch: none where no branch is open, or the check is barred.
    pub fn current_bans(&self) -> Option<&[Ban]>
        ensures { option_copied result ≡ current_bans (opening_of M.FloorMap.floor R.SplitRule.rules self.now.terms) (tally_in self.now.book) }
    {
        self.terms.opened().ok()?;
        self.book.branches.current()
    }

    // The current branch, if the check may be opened and a branch is open.
    fn branch(&self) -> Result<Branch<'_, M>, Refusal>
        ensures found { IfOk result (λ b. IsCurrent (opening_of M.FloorMap.floor R.SplitRule.rules self.now.terms) self.now.book (M.FloorMap.floor b.map.now) b.trips.now b.bans.now) }
        ensures refused { IfErr result (RefusesBranches (opening_of M.FloorMap.floor R.SplitRule.rules self.now.terms) self.now.book) }
    {
        self.terms.opened()?;
        let bans = self.book.branches.current().ok_or(Refusal::NothingOpen)?;
        Ok(Branch {
            map: self.terms.map,
            trips: self.terms.trips,
            bans,
        })
    }

    // Splits the current branch by a letter; what stands behind its operands is not read.
    pub fn split(
        &mut self,
        work: &mut Workspace,
        letter: u8,
        operands: &[u8],
    ) -> Result<(), Refusal>
        ensures answers { Answers (opening_of M.FloorMap.floor R.SplitRule.rules self.old.terms) self.old.book self.new.book (split letter operands.now) result }
        ensures unchanged { OnErr result (self.new ≡ self.old) }
        ensures still { self.new.terms ≡ self.old.terms }
    {
        let branch = self.branch()?;
        if self.book.is_full() {
            return Err(Refusal::Full);
        }
        if !self.terms.rules.knows(letter) {
            return Err(Refusal::Letter);
        }
        let width = self
            .terms
            .rules
            .width(letter, operands)
            .ok_or(Refusal::CutShort)?;
        let operands = &operands[..width];
        let (left, right) = self.terms.rules.sides(work, &branch, letter, operands)?;
        self.book.split(left, right);
        Ok(())
    }

    // Closes the current branch, if no set that keeps its bans sums below the claim.
    pub fn close(&mut self, work: &mut Workspace) -> Result<(), Refusal>
        ensures answers { Answers (opening_of M.FloorMap.floor R.SplitRule.rules self.old.terms) self.old.book self.new.book close result }
        ensures unchanged { OnErr result (self.new ≡ self.old) }
        ensures still { self.new.terms ≡ self.old.terms }
    {
        let branch = self.branch()?;
        if branch.cheaper(work, self.terms.claim) {
            return Err(Refusal::CheaperSet);
        }
        self.book.close();
        Ok(())
    }

    // Makes a call of whichever kind.
    pub fn call(&mut self, work: &mut Workspace, call: Call) -> Result<(), Refusal>
        ensures answers { Answers (opening_of M.FloorMap.floor R.SplitRule.rules self.old.terms) self.old.book self.new.book (meant call.entry) result }
        ensures unchanged { OnErr result (self.new ≡ self.old) }
        ensures still { self.new.terms ≡ self.old.terms }
    {
        match call {
            Call::Show { cart, places } => self.show(cart, places),
            Call::Split { letter, operands } => self.split(work, letter, operands),
            Call::Close => self.close(work),
        }
    }

    // What the check has come to.
    pub fn standing(&self) -> Standing
        ensures { result ≡ standing (opening_of M.FloorMap.floor R.SplitRule.rules self.now.terms) (tally_in self.now.book) }
    {
        // counted once: the verdict asks for it too
        let branches = self.book.branches.count();
        Standing {
            branches,
            splits: self.book.splits,
            closings: self.book.closings,
            verdict: self.verdict(branches),
        }
    }

    // The verdict, where so many branches are open. No `?`: a barred check has a verdict too, and only one that may be
    // opened has at most 16 carts to count.
    fn verdict(&self, branches: usize) -> Verdict
        requires { branches ≡ length (branches_of self.now.book.branches) }
        ensures { result ≡ (standing (opening_of M.FloorMap.floor R.SplitRule.rules self.now.terms) (tally_in self.now.book)).verdict }
    {
        if let Err(refusal) = self.terms.opened() {
            return Verdict::Barred(refusal);
        }
        Verdict::of(
            branches,
            unshown(&self.book.routes, self.terms.trips.len()),
            shown_sum(&self.book.routes, self.terms.trips.len()),
            usize::from(self.terms.claim),
        )
    }

    // Takes back the card: the standing, or foreign if it is another check's.
    pub fn settle(self, card: Card) -> Settlement
        ensures { result ≡ settle (opening_of M.FloorMap.floor R.SplitRule.rules self.entry.terms) (tally_in self.entry.book) card.number }
    {
        let standing = self.standing();
        let Check { terms, book: _ } = self;
        let Card { number } = card;
        if number == terms.card {
            Ok(standing)
        } else {
            Err(Foreign)
        }
    }
}

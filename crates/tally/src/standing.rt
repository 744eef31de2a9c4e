ghost use Rattle.std.specs.Prelude.{◌≡◌, Some, codes};
ghost use Rattle.tally.specs.Standings.{text_of, verdict_of};

use crate::refusal::Refusal;
use std::error::Error;
use std::fmt;
use std::fmt::{Display, Formatter};

// What a check has come to: the first of these that fits.
#[derive(Clone, Copy, PartialEq, Eq, Debug)]
pub enum Verdict {
    // why the check is barred
    Barred(Refusal),
    // how many branches are open
    Open(usize),
    // how many carts have no route
    Unshown(usize),
    // the sum of the shown routes, which is not the claim
    OtherSum(usize),
    // the claim
    Least(usize),
}

impl Verdict {
    // The first that fits, on a check that is not barred.
    pub fn of(branches: usize, unshown: usize, sum: usize, claim: usize) -> Verdict
        ensures { result ≡ verdict_of (Ok tt) branches unshown sum claim }
    {
        if branches > 0 {
            Verdict::Open(branches)
        } else if unshown > 0 {
            Verdict::Unshown(unshown)
        } else if sum == claim {
            Verdict::Least(claim)
        } else {
            Verdict::OtherSum(sum)
        }
    }
}

// The word and the number.
impl Display for Verdict {
    ghost output = { λ verdict. Some (text_of verdict) };

    fn fmt<W: fmt::Write>(&self, f: &mut Formatter<W>) -> fmt::Result {
        match *self {
            Verdict::Barred(refusal) => write!(f, "barred {}", refusal.number()),
            Verdict::Open(branches) => write!(f, "open {branches}"),
            Verdict::Unshown(carts) => write!(f, "unshown {carts}"),
            Verdict::OtherSum(shown) => write!(f, "othersum {shown}"),
            Verdict::Least(claim) => write!(f, "least {claim}"),
        }
    }
}

// How many branches are open, how many splits and closings were taken, and the verdict.
#[derive(Clone, Copy, PartialEq, Eq, Debug)]
pub struct Standing {
    pub branches: usize,
    pub splits: usize,
    pub closings: usize,
    pub verdict: Verdict,
}

// What is answered to a card with which another check was opened.
#[derive(Clone, Copy, PartialEq, Eq, Debug)]
pub struct Foreign;

impl Display for Foreign {
    ghost output = { λ _. Some (codes "the card of another check") };

    fn fmt<W: fmt::Write>(&self, f: &mut Formatter<W>) -> fmt::Result {
        f.write_str("the card of another check")
    }
}

impl Error for Foreign {}

// What is answered to a card.
pub type Settlement = Result<Standing, Foreign>;

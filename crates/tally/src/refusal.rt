ghost use Rattle.std.specs.Prelude.{◌≡◌, Some};
ghost use Rattle.tally.specs.Refusals.{number_of, word_of, from_route, from_rule};

use motion::RouteRefusal;
use splits::SplitRefusal;
use std::error::Error;
use std::fmt;
use std::fmt::{Display, Formatter};

// Why a check is barred, or a call on it refused.
#[derive(Clone, Copy, PartialEq, Eq, Debug)]
pub enum Refusal {
    // a place that is not on the floor
    NoPlace = 6,
    // not 1 to 16 carts
    Carts = 9,
    // two carts share a start or share a target
    Shared = 10,
    // a claim above 4,000
    Claim = 11,
    // a cart that is not there, or one cart named for both
    NoCart = 12,
    // a cart that has a route already
    Shown = 13,
    // a list of places that is no route of the cart
    BadRoute = 14,
    // a route that conflicts with a shown one
    InConflict = 15,
    // no branch is open
    NothingOpen = 16,
    // a branch under 64 splits, or 1,000,000 splits taken
    Full = 17,
    // a tick above 4,000, or tick 0 where a move arrives
    BadTick = 18,
    // the letter's own condition fails
    Unlawful = 19,
    // some set of routes keeps the bans of the branch and has a sum below the claim
    CheaperSet = 20,
    // a letter that no rule knows
    Letter = 21,
    // operands cut short
    CutShort = 22,
}

impl Refusal {
    pub fn number(self) -> u8
        ensures { result ≡ number_of self }
    {
        self as u8
    }
}

// What a show answers where the route test refuses.
impl From<RouteRefusal> for Refusal {
    ghost from_gives = { λ x r. r ≡ from_route x };

    fn from(refusal: RouteRefusal) -> Refusal {
        match refusal {
            RouteRefusal::NoPlace => Refusal::NoPlace,
            RouteRefusal::NoRoute => Refusal::BadRoute,
        }
    }
}

// What a split answers where the rule refuses.
impl From<SplitRefusal> for Refusal {
    ghost from_gives = { λ x r. r ≡ from_rule x };

    fn from(refusal: SplitRefusal) -> Refusal {
        match refusal {
            SplitRefusal::NoCart => Refusal::NoCart,
            SplitRefusal::NoPlace => Refusal::NoPlace,
            SplitRefusal::BadTick => Refusal::BadTick,
            SplitRefusal::Unlawful => Refusal::Unlawful,
        }
    }
}

// The word.
impl Display for Refusal {
    ghost output = { λ refusal. Some (word_of refusal) };

    fn fmt<W: fmt::Write>(&self, f: &mut Formatter<W>) -> fmt::Result {
        let word = match self {
            Refusal::NoPlace => "no place",
            Refusal::Carts => "carts",
            Refusal::Shared => "shared",
            Refusal::Claim => "claim",
            Refusal::NoCart => "no cart",
            Refusal::Shown => "shown",
            Refusal::BadRoute => "route",
            Refusal::InConflict => "conflict",
            Refusal::NothingOpen => "nothing open",
            Refusal::Full => "full",
            Refusal::BadTick => "tick",
            Refusal::Unlawful => "unlawful",
            Refusal::CheaperSet => "cheaper",
            Refusal::Letter => "letter",
            Refusal::CutShort => "cut short",
        };
        f.write_str(word)
    }
}

impl Error for Refusal {}

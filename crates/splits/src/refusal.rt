ghost use Rattle.std.specs.Prelude.{◌≡◌, Some};
ghost use Rattle.splits.specs.Refusals.{number_of, word_of};

use std::error::Error;
use std::fmt;
use std::fmt::{Display, Formatter};

// Why a split is refused, in the order in which it is tested.
#[derive(Clone, Copy, PartialEq, Eq, Hash, Debug)]
pub enum SplitRefusal {
    // a cart that is not there, or one cart named for both
    NoCart = 12,
    // a place that is not on the floor
    NoPlace = 6,
    // a tick above 4,000, or tick 0 where a move arrives
    BadTick = 18,
    // the letter's own condition fails
    Unlawful = 19,
}

impl SplitRefusal {
    pub fn number(self) -> u8
        ensures { result ≡ number_of self }
    {
        self as u8
    }
}

impl Display for SplitRefusal {
    ghost output = { λ refusal. Some (word_of refusal) };

    fn fmt<W: fmt::Write>(&self, f: &mut Formatter<W>) -> fmt::Result {
        f.write_str(match self {
            SplitRefusal::NoCart => "no cart",
            SplitRefusal::NoPlace => "no place",
            SplitRefusal::BadTick => "tick",
            SplitRefusal::Unlawful => "unlawful",
        })
    }
}

impl Error for SplitRefusal {}

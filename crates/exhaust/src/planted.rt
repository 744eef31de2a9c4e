// Differences that are planted, to see that each comparison notices them.
use crate::instance::Outcomes;
use std::fmt;
use std::fmt::{Display, Formatter};

// Which outcome of an instance's checks is replaced: that of the least sum by the one of a sum one higher, or one of the
// others by that of the least sum.
#[derive(Clone, Copy, PartialEq, Eq)]
pub enum Planted {
    Nothing,
    AtSum,
    Above,
    Below,
    Shorter,
}

pub const ALL: [Planted; 4] = [
    Planted::AtSum,
    Planted::Above,
    Planted::Below,
    Planted::Shorter,
];

impl Planted {
    pub fn replaced(self, outcomes: Outcomes) -> Outcomes {
        let Outcomes { at_sum, above, .. } = outcomes;
        match self {
            Planted::Nothing => outcomes,
            Planted::AtSum => Outcomes {
                at_sum: above,
                ..outcomes
            },
            Planted::Above => Outcomes {
                above: at_sum,
                ..outcomes
            },
            Planted::Below => Outcomes {
                below: outcomes.below.map(|_| at_sum),
                ..outcomes
            },
            Planted::Shorter => Outcomes {
                shorter: outcomes.shorter.map(|_| at_sum),
                ..outcomes
            },
        }
    }
}

impl Display for Planted {
    fn fmt<W: fmt::Write>(&self, f: &mut Formatter<W>) -> fmt::Result {
        f.write_str(match self {
            Planted::Nothing => "nothing",
            Planted::AtSum => "one higher in the place of the least sum",
            Planted::Above => "the least sum in the place of one higher",
            Planted::Below => "the least sum in the place of one lower",
            Planted::Shorter => "the least routes in the place of shorter ones",
        })
    }
}

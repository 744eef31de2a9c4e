// Differences that are planted, to see that a comparison notices them.
use crate::answer::Fault;
use crate::operands::Operands;
use crate::setting::Case;
use floor::Tick;
use motion::Ban;
use std::fmt;
use std::fmt::{Display, Formatter};

// How the answer of this program is changed.
#[derive(Clone, Copy, PartialEq, Eq)]
pub enum Planted {
    Nothing,
    // m is taken to be one more, but in the ban
    LaterTick,
    // the two bans are given the wrong way round
    BansExchanged,
    // a place off the floor has the number of a tick that is too high
    NumberOfAnother,
}

impl Planted {
    pub fn answer(self, case: &Case, o: Operands) -> Result<(Ban, Ban), Fault> {
        match self {
            Planted::Nothing => case.answer(o),
            Planted::LaterTick => one_later(case, o),
            Planted::BansExchanged => {
                let (left, right) = case.answer(o)?;
                Ok((right, left))
            }
            Planted::NumberOfAnother => match case.answer(o) {
                Err(Fault::NoPlace) => Err(Fault::BadTick),
                answer => answer,
            },
        }
    }
}

fn one_later(case: &Case, o: Operands) -> Result<(Ban, Ban), Fault> {
    let m = Tick(o.m.0.saturating_add(1));
    let (left, right) = case.answer(Operands { m, ..o })?;
    match left {
        Ban::Stand {
            cart,
            place,
            first,
            ..
        } => Ok((
            Ban::Stand {
                cart,
                place,
                first,
                last: o.m,
            },
            right,
        )),
        _ => Ok((left, right)),
    }
}

impl Display for Planted {
    fn fmt<W: fmt::Write>(&self, f: &mut Formatter<W>) -> fmt::Result {
        f.write_str(match self {
            Planted::Nothing => "nothing planted",
            Planted::LaterTick => "m one more",
            Planted::BansExchanged => "the bans exchanged",
            Planted::NumberOfAnother => "the number of another refusal",
        })
    }
}

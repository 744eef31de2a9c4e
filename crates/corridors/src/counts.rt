// How many splits were tried, and what came of them.
use crate::answer::Fault;
use motion::Ban;
use std::fmt;
use std::fmt::{Display, Formatter};

#[derive(Clone, Copy, Default)]
pub struct Counts {
    pub tried: u64,
    pub taken: u64,
    pub no_cart: u64,
    pub no_place: u64,
    pub bad_tick: u64,
    pub no_corridor: u64,
    pub starts_inside: u64,
    pub too_far: u64,
    pub differences: u64,
}

fn add_one(count: &mut u64) {
    *count = count.saturating_add(1);
}

impl Counts {
    // Counts a split with this answer.
    pub fn add(&mut self, answer: Result<(Ban, Ban), Fault>, differs: bool) {
        add_one(&mut self.tried);
        if differs {
            add_one(&mut self.differences);
        }
        add_one(match answer {
            Ok(_) => &mut self.taken,
            Err(Fault::NoCart) => &mut self.no_cart,
            Err(Fault::NoPlace) => &mut self.no_place,
            Err(Fault::BadTick) => &mut self.bad_tick,
            Err(Fault::NoCorridor) => &mut self.no_corridor,
            Err(Fault::StartsInside) => &mut self.starts_inside,
            Err(Fault::TooFar) => &mut self.too_far,
        });
    }

    fn unlawful(&self) -> u64 {
        self.no_corridor
            .saturating_add(self.starts_inside)
            .saturating_add(self.too_far)
    }
}

impl Display for Counts {
    fn fmt<W: fmt::Write>(&self, f: &mut Formatter<W>) -> fmt::Result {
        let Counts {
            tried,
            taken,
            no_cart,
            no_place,
            bad_tick,
            no_corridor,
            starts_inside,
            too_far,
            differences,
        } = *self;
        let unlawful = self.unlawful();
        writeln!(
            f,
            "{tried} tried, {taken} taken, {no_cart} refused with 12, {no_place} with 6, {bad_tick} with 18, {unlawful} with 19"
        )?;
        write!(
            f,
            "        19: {no_corridor} no corridor, {starts_inside} a start inside, {too_far} a tick too far; {differences} differences"
        )
    }
}

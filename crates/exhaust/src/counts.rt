// What was gone through, and what came of it.
use std::fmt;
use std::fmt::{Display, Formatter};

#[derive(Clone, Copy, Default)]
pub struct Counts {
    pub instances: u64,
    pub unsolved: u64,
    pub least: u64,
    pub cheaper: u64,
    pub other_sum: u64,
    pub in_conflict: u64,
    pub splits: u64,
    pub closings: u64,
    pub most_splits: u64,
    pub without_tree: u64,
    pub disagreements: u64,
}

pub fn add(count: &mut u64, more: u64) {
    *count = count.saturating_add(more);
}

impl Display for Counts {
    fn fmt<W: fmt::Write>(&self, f: &mut Formatter<W>) -> fmt::Result {
        let Counts {
            instances,
            unsolved,
            least,
            cheaper,
            other_sum,
            in_conflict,
            splits,
            closings,
            most_splits,
            without_tree,
            disagreements,
        } = *self;
        writeln!(
            f,
            "    {instances} instances, {unsolved} without a solution"
        )?;
        writeln!(
            f,
            "    {least} settled as least, {cheaper} refused one higher, {other_sum} of another sum one lower, {in_conflict} with shorter routes refused"
        )?;
        writeln!(
            f,
            "    {splits} splits, at most {most_splits} in a tree, and {closings} closings"
        )?;
        write!(
            f,
            "    {without_tree} without a tree, {disagreements} disagreements"
        )
    }
}

ghost use Rattle.splits.specs.Beside.{beside};
ghost use Rattle.splits.specs.BesideRuleLemmas.{beside_lawful};

use crate::refusal::SplitRefusal;
use crate::rule::SplitRule;
use floor::FloorMap;
use motion::Ban;
use search::{Branch, Workspace};

// Two rules side by side: a letter is answered by the first to know it.
#[derive(Drop)]
pub struct Beside<A, B> {
    pub first: A,
    pub second: B,
}

impl<A: SplitRule, B: SplitRule> SplitRule for Beside<A, B> {
    ghost rules = { λ s. beside (A.SplitRule.rules s.first) (B.SplitRule.rules s.second) };

    ghost lawful = { λ s. beside_lawful _ _ (A.SplitRule.lawful s.first) (B.SplitRule.lawful s.second) };

    fn knows(&self, letter: u8) -> bool {
        self.first.knows(letter) || self.second.knows(letter)
    }

    fn width(&self, letter: u8, bytes: &[u8]) -> Option<usize> {
        if self.first.knows(letter) {
            self.first.width(letter, bytes)
        } else {
            self.second.width(letter, bytes)
        }
    }

    fn sides<M: FloorMap>(
        &self,
        work: &mut Workspace,
        branch: &Branch<M>,
        letter: u8,
        operands: &[u8],
    ) -> Result<(Ban, Ban), SplitRefusal> {
        if self.first.knows(letter) {
            self.first.sides(work, branch, letter, operands)
        } else {
            self.second.sides(work, branch, letter, operands)
        }
    }
}

ghost use Rattle.std.specs.Prelude.{◌≡◌};
ghost use Rattle.splits.specs.Rules.{Rules, LawfulRules};

use crate::refusal::SplitRefusal;
use floor::FloorMap;
use motion::Ban;
use search::{Branch, Workspace};

// What can be asked of split rules. Asking alters nothing: every question takes the rules by `&`.
pub trait SplitRule {
    // what the rules mean
    ghost rules: { Self → Rules };

    // whether the letter is one of theirs
    fn knows(&self, letter: u8) -> bool
        ensures { result ≡ (rules self.now).knows letter };

    // how many of the bytes after the letter are its operands: none where they are cut short
    fn width(&self, letter: u8, bytes: &[u8]) -> Option<usize>
        ensures { result ≡ (rules self.now).width letter bytes.now };

    // the left ban and the right ban that the letter gives on the branch, or why it gives none
    fn sides<M: FloorMap>(
        &self,
        work: &mut Workspace,
        branch: &Branch<M>,
        letter: u8,
        operands: &[u8],
    ) -> Result<(Ban, Ban), SplitRefusal>
        ensures { result ≡ (rules self.now).sides (M.FloorMap.floor branch.now.map.now) branch.now.trips.now branch.now.bans.now letter operands.now };

    ghost lawful: { (s : Self) → LawfulRules (rules s) };
}

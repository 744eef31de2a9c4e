ghost use Rattle.std.specs.Prelude.{◌≡◌, Bool};
ghost use Rattle.floor.specs.Tests.{every};
ghost use Rattle.motion.specs.declared.ban.Ban.{Ban};

use motion::Ban;

// The bans that are kept: those of a branch, and one more where there is one.
#[derive(Clone, Copy)]
pub struct Bans<'a> {
    pub branch: &'a [Ban],
    pub more: Option<Ban>,
}

impl<'a> Bans<'a> {
    ghost use Rattle.search.specs.BanLists.{all_bans};

    // Whether every ban passes the test: first the one more, then the branch's.
    pub fn all<F: Fn(Ban) -> bool>(&self, passes: F) -> bool
        requires { F.IsAlwaysCallable passes }
        ensures { (p : Ban → Bool) → ((b : Ban) (r : Bool) → F.post passes b r → r ≡ p b) → result ≡ every p (all_bans self.now) }
    {
        if let Some(ban) = self.more
            && !passes(ban)
        {
            return false;
        }
        self.branch.iter().all(|&ban| passes(ban))
    }
}

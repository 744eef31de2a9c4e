ghost use Rattle.std.specs.Prelude.{◌≡◌, ◌+◌, ◌≤◌, length};
ghost use Rattle.checking.specs.OpenBranches.{branches_of};

use crate::branches::Branches;
use crate::routes::Routes;

pub mod methods;

// All that calls on a check change.
#[derive(Drop)]
pub struct Book {
    pub branches: Branches,
    pub routes: Routes,
    pub splits: usize,
    pub closings: usize,
    ghost counts: { length (branches_of branches) + closings ≡ splits + 1 },
    ghost few: { splits ≤ 1000000 },
}

ghost use Rattle.std.specs.Prelude.{◌≡◌, ◌≤◌, length};
ghost use Rattle.arrayvec.specs.ArrayVec.{array_vec_len};

use arrayvec::ArrayVec;
use motion::Ban;

pub mod methods;

// The open branches, by the way down to the current one: at each split above it the ban of the side that was taken, and
// the right side's ban where that side is still to come.
#[derive(Drop)]
pub struct Branches {
    // As many are in use as there are splits above. An array beside the vector, since the search is lent them as one
    // slice, without the right sides, and a second vector would need a default ban.
    bans: [Ban; 64],
    others: ArrayVec<Option<Ban>, 64>,
    // Whether there is a current branch. An `Option` around the rest would be tested again at each split and closing.
    open: bool,
    ghost deep: { array_vec_len others ≤ 64 },
    ghost full: { length bans ≡ 64 },
}

#![tactic(auto)]

mod iter;
mod joins;
mod numbers;

ghost use Rattle.std.specs.Prelude.{◌≡◌, length};
ghost use Rattle.floor.specs.Floor.{Floor, Lawful};
ghost use Rattle.std.specs.List.{slice_get};
ghost use Rattle.std.specs.Option.{option_map};

pub use iter::{NeighbourIter, neighbours_of};
pub use joins::is_joined;

// A place of the floor, by its number from 0.
#[derive(Clone, Copy, PartialEq, Eq, PartialOrd, Ord, Hash, Default, Debug)]
pub struct Place(pub u16);

// A cart of a check, by its number from 0.
#[derive(Clone, Copy, PartialEq, Eq, PartialOrd, Ord, Hash, Default, Debug)]
pub struct Cart(pub u8);

// A tick of the clock that all carts share, from 0.
#[derive(Clone, Copy, PartialEq, Eq, PartialOrd, Ord, Hash, Default, Debug)]
pub struct Tick(pub u16);

// What can be asked of a map. Asking alters nothing: every question takes the map by `&`.
pub trait FloorMap {
    // the floor that the map means
    ghost floor: { Self → Floor };

    // how many places there are
    fn places(&self) -> usize
        ensures { result ≡ (floor self.now).count };

    // how many neighbours `p` has: 0 off the floor
    fn degree(&self, p: Place) -> usize
        ensures { result ≡ length ((floor self.now).next p.0) };

    // neighbour number `i` of `p`, from 0: absent past the last one, and off the floor
    fn neighbour(&self, p: Place, i: usize) -> Option<Place>
        ensures { option_map (λ q. q.0) result ≡ slice_get ((floor self.now).next p.0) i };

    ghost lawful: { (m : Self) → Lawful (floor m) };
}

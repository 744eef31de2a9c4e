// Where a cart starts, and where it has to be in the end.
ghost use Rattle.std.specs.Prelude.{◌≡◌, slice_index_or};
ghost use Rattle.motion.specs.Routes.{nowhere};

use floor::{Cart, Place};
use motion::Trip;

// The trip of the cart. That of a cart that is not there is from place 0 to place 0.
pub fn trip_of(trips: &[Trip], cart: Cart) -> Trip
    ensures { result ≡ slice_index_or trips.now cart.0 nowhere }
{
    trips.get(usize::from(cart)).copied().unwrap_or(Trip {
        start: Place(0),
        target: Place(0),
    })
}

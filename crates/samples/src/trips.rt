ghost use Rattle.std.specs.Prelude.{◌≡◌, [], ◌∷◌};
ghost use Rattle.samples.specs.Trips.{trip};

use floor::Place;
use motion::Trip;

pub fn trip(start: u16, target: u16) -> Trip
    ensures { result ≡ trip start target }
{
    Trip {
        start: Place(start),
        target: Place(target),
    }
}

// Two carts of the small floor that meet at place 2: one on its way from 0 to 3, the other from 4.
pub fn small_trips() -> [Trip; 2]
    ensures { result ≡ trip 0 3 ∷ trip 4 2 ∷ [] }
{
    [trip(0, 3), trip(4, 2)]
}

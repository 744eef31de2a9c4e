ghost use Rattle.std.specs.Prelude.{◌≡◌};
ghost use Rattle.floor.specs.Numbers.{numbers};
ghost use Rattle.plan.specs.Commands.{words};

use crate::places::Places;
use arrayvec::ArrayVec;
use floor::Place;

impl Places<'_> {
    // The places themselves.
    pub fn decode(self) -> ArrayVec<Place, 256>
        ensures { numbers result.items ≡ words self.entry.bytes.now }
    {
        let (pairs, _) = self.bytes.as_chunks::<2>();
        let mut places = ArrayVec::new();
        for pair in pairs {
            places.push(Place(u16::from_be_bytes(*pair)));
        }
        places
    }
}

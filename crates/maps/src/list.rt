ghost use Rattle.std.specs.Prelude.{◌≡◌, ℕ, ◌≤◌};
ghost use Rattle.floor.specs.Floor.{Lawful};
ghost use Rattle.maps.specs.Networks.{network_floor, partners};
ghost use Rattle.maps.specs.Tables.{row_of};

use crate::connection::Connection;
use arrayvec::ArrayVec;
use floor::Place;

mod founding;
mod joining;
pub mod methods;

const MOST_CONNECTIONS: usize = 4096;

// A floor given by its connections. It has the memory of the largest one from the start, and is founded anew in it, so
// that no floor and no connection can want any.
#[derive(Drop)]
pub struct ListMap {
    // the neighbours of each place
    rows: Vec<ArrayVec<Place, 8>>,
    // what the map means, in their order, while the rows answer questions
    connections: Vec<Connection>,
    ghost lawful: { ∥ Lawful (network_floor (record { places = rows.len; connections = connections.items })) ∥₁ },
    ghost tied: { (p : ℕ) → row_of rows.items p ≡ partners p connections.items },
    ghost few: { connections.len ≤ 4096 },
    ghost room: { (1024 ≤ rows.cap) × (4096 ≤ connections.cap) },
}

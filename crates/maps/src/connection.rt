use floor::Place;

// Two places that a cart can go between, either way.
#[derive(Clone, Copy, PartialEq, Eq, Debug)]
pub struct Connection {
    pub first: Place,
    pub second: Place,
}

use crate::bans::Bans;
use floor::Cart;
use motion::Trip;

// The search of one cart: the floor, all trips, the bans to keep, and the cart.
#[derive(Drop)]
pub struct CartSearch<'a, M> {
    pub map: &'a M,
    pub trips: &'a [Trip],
    pub bans: Bans<'a>,
    pub cart: Cart,
}

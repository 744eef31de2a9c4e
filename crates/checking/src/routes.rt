ghost use Rattle.std.specs.Prelude.{◌<◌, All, nat_eq};
ghost use Rattle.std.proofs.Props.{props};
ghost use Rattle.std.specs.List.{IsDistinct};
ghost use Rattle.checking.specs.Kept.{carts_in};

use arrayvec::ArrayVec;
use floor::{Cart, Place};

pub mod methods;

// The route of a cart.
#[derive(Default, Drop)]
pub struct Kept {
    cart: Cart,
    places: ArrayVec<Place, 256>,
}

// The routes shown, in their order: at most 16, each of another cart.
#[derive(Drop)]
pub struct Routes {
    kept: ArrayVec<Kept, 16>,
    ghost known: { All (λ a. a < 16) (carts_in kept.items) },
    ghost apart: { IsDistinct nat_eq (carts_in kept.items) } by { Prim.hlevel props },
}

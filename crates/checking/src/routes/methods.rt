ghost use Rattle.std.specs.Prelude.{◌≡◌, ◌<◌, ◌≤◌, false, [], ◌∷◌, ◌++◌, length, nat_eq};
ghost use Rattle.checking.specs.ShownRoutes.{shown_in};
ghost use Rattle.floor.specs.Tests.{some};
ghost use Rattle.floor.specs.Numbers.{numbers};
ghost use Rattle.motion.specs.Listed.{in_conflict, steps};
ghost use Rattle.std.specs.List.{find};
ghost use Rattle.std.specs.Option.{option_copied, unwrap_or};
ghost use Rattle.tally.specs.Tallies.{is_shown, places_of};

use crate::routes::{Kept, Routes};
use arrayvec::ArrayVec;
use floor::{Cart, Place};
use motion::in_conflict;

impl Routes {
    pub fn new() -> Routes
        ensures { shown_in result ≡ [] }
    {
        Routes {
            kept: ArrayVec::new(),
        }
    }

    // The route of the cart. `has` does without it, as its `any` is as short.
    fn route(&self, cart: Cart) -> Option<&Kept>
        ensures { option_copied result ≡ find (λ k. nat_eq k.cart.0 cart.0) self.now.kept.items }
    {
        self.kept.iter().find(|kept| kept.cart == cart)
    }

    // Whether the cart has a route.
    pub fn has(&self, cart: Cart) -> bool
        ensures { result ≡ is_shown (shown_in self.now) cart.0 }
    {
        self.kept.iter().any(|kept| kept.cart == cart)
    }

    // Whether the places conflict with a route shown.
    pub fn conflict(&self, places: &[Place]) -> bool
        ensures { result ≡ some (λ s. in_conflict (numbers places.now) s.places) (shown_in self.now) }
    {
        self.kept
            .iter()
            .any(|kept| in_conflict(places, &kept.places))
    }

    // How many steps the cart's route has: none where it has no route. Of `map_or` it was not proved.
    pub fn steps(&self, cart: Cart) -> usize
        ensures steps { result ≡ steps (unwrap_or (places_of (shown_in self.now) cart.0) []) }
        ensures few { result ≤ 255 }
    {
        match self.route(cart) {
            Some(kept) => kept.places.len().saturating_sub(1),
            None => 0,
        }
    }

    // One route more.
    pub fn add(&mut self, cart: Cart, places: &[Place])
        requires { (cart.0 < 16) × ((length places.now ≤ 256) × (is_shown (shown_in self.old) cart.0 ≡ false)) }
        ensures { shown_in self.new ≡ shown_in self.old ++ (record { cart = cart.0; places = numbers places.now } ∷ []) }
    {
        let mut kept = Kept {
            cart,
            places: ArrayVec::new(),
        };
        kept.places.try_extend_from_slice(places).unwrap();
        self.kept.push(kept);
    }
}

// Counts over the carts of a check, by their numbers, which no list has: at most 16, so that they are `Cart`s.
ghost use Rattle.std.specs.Prelude.{◌≡◌, ◌≤◌, [], if◌then◌else◌};
ghost use Rattle.checking.specs.ShownRoutes.{shown_in};
ghost use Rattle.motion.specs.Listed.{steps};
ghost use Rattle.motion.specs.Routes.{total};
ghost use Rattle.std.specs.Option.{unwrap_or};
ghost use Rattle.tally.specs.Tallies.{is_shown, places_of};

use crate::routes::Routes;
use floor::Cart;

// How many carts have no route.
pub fn unshown(routes: &Routes, carts: usize) -> usize
    requires { carts ≤ 16 }
    ensures { result ≡ total carts (λ a. (if is_shown (shown_in routes.now) a then 0 else 1)) }
{
    (0..carts).filter(|&a| !routes.has(Cart(a as u8))).count()
}

// The sum of the routes shown.
pub fn shown_sum(routes: &Routes, carts: usize) -> usize
    requires { carts ≤ 16 }
    ensures { result ≡ total carts (λ a. steps (unwrap_or (places_of (shown_in routes.now) a) [])) }
{
    (0..carts).map(|a| routes.steps(Cart(a as u8))).sum()
}

// The first conflict of routes, and the split for it.
use crate::least_routes::Route;
use crate::split::Split;
use floor::{Cart, Place, Tick};

// The split of the first conflict, if there is one.
pub fn first_split(routes: &[Route]) -> Option<Split> {
    let ticks = routes.iter().map(|route| route.len()).max()?;
    let ticks = u16::try_from(ticks).unwrap_or(u16::MAX);
    (0..ticks).find_map(|t| split_at(routes, Tick(t)))
}

fn split_at(routes: &[Route], t: Tick) -> Option<Split> {
    [(0, 1), (0, 2), (1, 2)].iter().find_map(|&(a, b)| {
        let first = OnRoute::new(routes, a)?;
        let second = OnRoute::new(routes, b)?;
        split_of(&first, &second, t)
    })
}

// A cart on its route.
#[derive(Drop)]
struct OnRoute<'a> {
    cart: Cart,
    places: &'a [Place],
}

impl<'a> OnRoute<'a> {
    fn new(routes: &'a [Route], cart: u8) -> Option<OnRoute<'a>> {
        let route = routes.get(usize::from(cart))?;
        Some(OnRoute {
            cart: Cart(cart),
            places: route,
        })
    }

    fn place(&self, tick: u16) -> Option<Place> {
        let place = self.places.get(usize::from(tick)).or(self.places.last());
        place.copied()
    }

    // Whether it stays from the tick on.
    fn has_arrived(&self, tick: u16) -> bool {
        usize::from(tick) + 1 >= self.places.len()
    }
}

// The split of a conflict at the tick, or in the step to it.
fn split_of(first: &OnRoute, second: &OnRoute, tick: Tick) -> Option<Split> {
    let here = first.place(tick.0)?;
    let there = second.place(tick.0)?;
    if here == there {
        return Some(meeting(first, second, here, tick));
    }
    let before = tick.0.checked_sub(1)?;
    let from = first.place(before)?;
    let swap = from == there && second.place(before)? == here;
    swap.then_some(Split::Edge {
        a: first.cart,
        b: second.cart,
        from,
        to: here,
        tick,
    })
}

// The split of two carts at one place: by the length of a cart that has arrived, if one has.
fn meeting(first: &OnRoute, second: &OnRoute, place: Place, tick: Tick) -> Split {
    if first.has_arrived(tick.0) {
        let cart = first.cart;
        return Split::Target { cart, tick };
    }
    if second.has_arrived(tick.0) {
        let cart = second.cart;
        return Split::Target { cart, tick };
    }
    Split::Vertex {
        a: first.cart,
        b: second.cart,
        place,
        tick,
    }
}

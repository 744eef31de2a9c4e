// A walk of a cart, and whether it keeps bans, as the rules say it: asked tick by tick.
use floor::{Cart, Place, Tick};
use motion::{Ban, Trip};

// From here on nothing changes: walks are shorter, and no ban names a later tick.
const HORIZON: u16 = 16;

// The walk stays for ever at its last place.
#[derive(Drop)]
pub struct Walk<'a> {
    pub trips: &'a [Trip],
    pub cart: Cart,
    pub places: &'a [Place],
}

impl Walk<'_> {
    fn at(&self, tick: u16) -> Option<Place> {
        let place = self.places.get(usize::from(tick)).or(self.places.last());
        place.copied()
    }

    fn target_of(&self, cart: Cart) -> Option<Place> {
        self.trips.get(usize::from(cart)).map(|trip| trip.target)
    }

    // The least tick from which on the cart is always at its target.
    pub fn length(&self) -> Option<Tick> {
        let target = self.target_of(self.cart);
        if self.at(HORIZON) != target {
            return None;
        }
        let away = (0..HORIZON).rev().find(|t| self.at(*t) != target);
        Some(Tick(away.map_or(0, |t| t.saturating_add(1))))
    }

    // Whether the walk, which has the length, keeps the ban.
    pub fn keeps(&self, length: Tick, ban: Ban) -> bool {
        match ban {
            Ban::Stand {
                cart,
                place,
                first,
                last,
            } => cart != self.cart || self.is_away(place, first, last),
            Ban::Move {
                cart,
                from,
                to,
                first,
                last,
            } => cart != self.cart || (first.0..=last.0).all(|t| !self.goes(from, to, t)),
            Ban::Late { cart, tick } => cart != self.cart || length > tick,
            Ban::By { cart, tick } if cart == self.cart => length <= tick,
            Ban::By { cart, tick } => match self.target_of(cart) {
                Some(target) => self.is_away(target, tick, Tick(HORIZON)),
                None => true,
            },
        }
    }

    // Whether the cart is not at the place at any of the ticks.
    fn is_away(&self, place: Place, first: Tick, last: Tick) -> bool {
        (first.0..=last.0).all(|t| self.at(t) != Some(place))
    }

    // Whether it goes from the one place to the other in the step that arrives at the tick.
    fn goes(&self, from: Place, to: Place, tick: u16) -> bool {
        match tick.checked_sub(1) {
            Some(before) => self.at(before) == Some(from) && self.at(tick) == Some(to),
            None => false,
        }
    }
}

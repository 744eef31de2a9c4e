// The least route of one cart that keeps bans, tick by tick, written for this program alone.
use crate::least_routes::Route;
use crate::small_floor::SmallFloor;
use floor::{Cart, Place, Tick};
use motion::{Ban, Trip};
use std::alloc::{AllocError, Global};

// For each place the place before it on some walk that is there at the tick.
type Row = [Option<Place>; 6];

// The search of one cart.
#[derive(Drop)]
pub struct CartRoute<'a> {
    pub floor: &'a SmallFloor,
    pub trips: &'a [Trip],
    pub bans: &'a [Ban],
    pub cart: Cart,
    pub trip: Trip,
}

impl CartRoute<'_> {
    // A least route, if it has fewer steps than the limit.
    pub fn least(&self, heap: Global, limit: u16) -> Result<Option<Route>, AllocError> {
        let Trip { start, target } = self.trip;
        if limit == 0 || !self.may_be(Tick(0), start) {
            return Ok(None);
        }
        if start == target && self.may_end(Tick(0)) {
            return Ok(Some(vec![in heap; start]?));
        }
        let mut rows = Vec::new(heap);
        let mut row = first_row(start);
        for u in 1..limit {
            rows.push(row)?;
            if let Some(p) = self.comes_home(Tick(u), &row) {
                return Ok(Some(read_back(heap, &rows, p, target)?));
            }
            row = self.next_row(Tick(u), &row);
        }
        Ok(None)
    }

    // From where the cart can come to its target at the tick, to stay there.
    fn comes_home(&self, t: Tick, row: &Row) -> Option<Place> {
        if !self.may_end(t) || !self.may_be(t, self.trip.target) {
            return None;
        }
        self.before(t, row, self.trip.target, false)
    }

    fn next_row(&self, t: Tick, row: &Row) -> Row {
        let mut next: Row = [None; 6];
        for (q, before) in next.iter_mut().enumerate() {
            let q = Place(q as u16);
            if self.may_be(t, q) {
                *before = self.before(t, row, q, true);
            }
        }
        next
    }

    // A place of the row from which the cart may go to `q`, or wait there where waiting counts.
    fn before(&self, t: Tick, row: &Row, q: Place, waiting: bool) -> Option<Place> {
        for (p, reached) in row.iter().enumerate() {
            let p = Place(p as u16);
            let steps = self.floor.joins(p, q) || waiting && p == q;
            if reached.is_some() && steps && self.may_go(t, p, q) {
                return Some(p);
            }
        }
        None
    }

    // Whether the bans let the cart be there at the tick.
    fn may_be(&self, t: Tick, p: Place) -> bool {
        self.bans.iter().all(|ban| match *ban {
            Ban::Stand {
                cart,
                place,
                first,
                last,
            } => cart != self.cart || place != p || t < first || last < t,
            Ban::By { cart, tick } => {
                cart == self.cart || t < tick || self.target_of(cart) != Some(p)
            }
            Ban::Move { .. } | Ban::Late { .. } => true,
        })
    }

    // Whether they let it go so, arriving at the tick.
    fn may_go(&self, t: Tick, p: Place, q: Place) -> bool {
        self.bans.iter().all(|ban| match *ban {
            Ban::Move {
                cart,
                from,
                to,
                first,
                last,
            } => cart != self.cart || from != p || to != q || t < first || last < t,
            Ban::Stand { .. } | Ban::Late { .. } | Ban::By { .. } => true,
        })
    }

    // Whether they let it have this length, and stay at its target for ever.
    fn may_end(&self, n: Tick) -> bool {
        let target = self.trip.target;
        self.bans.iter().all(|ban| match *ban {
            Ban::Late { cart, tick } => cart != self.cart || tick < n,
            Ban::By { cart, tick } if cart == self.cart => n <= tick,
            Ban::By { cart, .. } => self.target_of(cart) != Some(target),
            Ban::Stand {
                cart,
                place,
                first,
                last,
            } => cart != self.cart || place != target || last < first || last < n,
            Ban::Move {
                cart,
                from,
                to,
                first,
                last,
            } => {
                cart != self.cart || from != target || to != target || last < first || last <= n
            }
        })
    }

    fn target_of(&self, cart: Cart) -> Option<Place> {
        self.trips.get(usize::from(cart)).map(|trip| trip.target)
    }
}

fn first_row(start: Place) -> Row {
    let mut row: Row = [None; 6];
    if let Some(before) = row.get_mut(usize::from(start)) {
        *before = Some(start);
    }
    row
}

// The places of a walk that ends with a step from `p` to the target, read from the last row back to the first.
fn read_back(heap: Global, rows: &[Row], p: Place, target: Place) -> Result<Route, AllocError> {
    let mut route = vec![in heap; target]?;
    let mut at = p;
    for row in rows.iter().rev() {
        route.push(at)?;
        at = row.get(usize::from(at)).copied().flatten().unwrap_or(at);
    }
    route.reverse();
    Ok(route)
}

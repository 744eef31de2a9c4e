// Why a split is refused.
use crate::answers::Reason;
use crate::corridors::CorridorReason;
use crate::letters::Letter;
use floor::{Cart, FloorMap, Place, Tick, is_joined};
use motion::Trip;
use search::{Branch, Workspace};
use std::fmt;
use std::fmt::{Display, Formatter};
use tally::Refusal;

const MOST_ABOVE: usize = 64;

const MOST_SPLITS: usize = 1_000_000;

const LAST_TICK: Tick = Tick(4000);

#[derive(Clone, Copy)]
pub enum SplitReason {
    NothingOpen,
    // as many splits above the branch as may be
    Deep,
    // as many splits taken as may be
    Many,
    NoCart(Cart),
    // one cart for both
    Twice(Cart),
    PlaceOff(Place),
    TooLate(Tick),
    MoveAtStart,
    Apart { p: Place, q: Place },
    Corridor(CorridorReason),
}

impl Display for SplitReason {
    fn fmt<W: fmt::Write>(&self, f: &mut Formatter<W>) -> fmt::Result {
        match *self {
            SplitReason::NothingOpen => write!(f, "no branch is open"),
            SplitReason::Deep => write!(f, "the branch lies under {MOST_ABOVE} splits"),
            SplitReason::Many => write!(f, "{MOST_SPLITS} splits were taken"),
            SplitReason::NoCart(cart) => write!(f, "there is no cart {cart}"),
            SplitReason::Twice(cart) => write!(f, "cart {cart} is named twice"),
            SplitReason::PlaceOff(place) => write!(f, "place {place} is not on the floor"),
            SplitReason::TooLate(tick) => write!(f, "tick {tick} is above {LAST_TICK}"),
            SplitReason::MoveAtStart => write!(f, "a move does not arrive at tick 0"),
            SplitReason::Apart { p, q } => write!(f, "places {p} and {q} are not neighbours"),
            SplitReason::Corridor(reason) => write!(f, "{reason}"),
        }
    }
}

impl Reason for SplitReason {
    fn refusal(&self) -> Refusal {
        match self {
            SplitReason::NothingOpen => Refusal::NothingOpen,
            SplitReason::Deep | SplitReason::Many => Refusal::Full,
            SplitReason::NoCart(_) | SplitReason::Twice(_) => Refusal::NoCart,
            SplitReason::PlaceOff(_) => Refusal::NoPlace,
            SplitReason::TooLate(_) | SplitReason::MoveAtStart => Refusal::BadTick,
            SplitReason::Apart { .. } | SplitReason::Corridor(_) => Refusal::Unlawful,
        }
    }
}

// Tests a split of the current branch as a check does that has taken so many splits.
pub fn test_split<M: FloorMap>(
    work: &mut Workspace,
    branch: Option<Branch<M>>,
    taken: usize,
    letter: Letter,
) -> Result<(), SplitReason> {
    let branch = branch.ok_or(SplitReason::NothingOpen)?;
    if branch.bans.len() >= MOST_ABOVE {
        return Err(SplitReason::Deep);
    }
    if taken >= MOST_SPLITS {
        return Err(SplitReason::Many);
    }
    test_letter(work, &branch, letter)
}

// Tests what the letter's rule asks.
fn test_letter<M: FloorMap>(
    work: &mut Workspace,
    branch: &Branch<M>,
    letter: Letter,
) -> Result<(), SplitReason> {
    let Branch { map, trips, .. } = *branch;
    match letter {
        Letter::Vertex { a, b, p, t } => {
            test_two_carts(trips, a, b)?;
            test_place(map, p)?;
            test_tick(t)
        }
        Letter::Edge { a, b, p, q, t } => {
            test_two_carts(trips, a, b)?;
            test_place(map, p)?;
            test_place(map, q)?;
            test_arrival(t)?;
            test_joined(map, p, q)
        }
        Letter::Target { a, t } => {
            test_cart(trips, a)?;
            test_tick(t)
        }
        Letter::Corridor(corridor) => {
            test_two_carts(trips, corridor.a, corridor.b)?;
            test_place(map, corridor.p)?;
            test_place(map, corridor.q)?;
            test_tick(corridor.m)?;
            test_tick(corridor.n)?;
            corridor.test(work, branch).map_err(SplitReason::Corridor)
        }
    }
}

fn test_cart(trips: &[Trip], cart: Cart) -> Result<(), SplitReason> {
    if usize::from(cart) < trips.len() {
        Ok(())
    } else {
        Err(SplitReason::NoCart(cart))
    }
}

fn test_two_carts(trips: &[Trip], a: Cart, b: Cart) -> Result<(), SplitReason> {
    test_cart(trips, a)?;
    test_cart(trips, b)?;
    if a == b {
        return Err(SplitReason::Twice(a));
    }
    Ok(())
}

fn test_place<M: FloorMap>(map: &M, place: Place) -> Result<(), SplitReason> {
    if usize::from(place) < map.places() {
        Ok(())
    } else {
        Err(SplitReason::PlaceOff(place))
    }
}

fn test_tick(tick: Tick) -> Result<(), SplitReason> {
    if tick <= LAST_TICK {
        Ok(())
    } else {
        Err(SplitReason::TooLate(tick))
    }
}

// A move arrives at tick 1 at the earliest.
fn test_arrival(tick: Tick) -> Result<(), SplitReason> {
    if tick == Tick(0) {
        return Err(SplitReason::MoveAtStart);
    }
    test_tick(tick)
}

fn test_joined<M: FloorMap>(map: &M, p: Place, q: Place) -> Result<(), SplitReason> {
    if is_joined(map, p, q) {
        Ok(())
    } else {
        Err(SplitReason::Apart { p, q })
    }
}

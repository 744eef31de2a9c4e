// When a cart can be at a place first.
use floor::{Cart, FloorMap, Place, Tick};
use motion::Ban;
use search::{Branch, Workspace};

// The earliest tick before `end`, which is below 4,096, at which the cart can be at the place, under one ban more where
// there is one. Halved again and again, as each tick that is tried is searched from tick 0.
pub fn earliest<M: FloorMap>(
    work: &mut Workspace,
    branch: &Branch<M>,
    more: Option<Ban>,
    cart: Cart,
    place: Place,
    end: Tick,
) -> Option<Tick> {
    if !branch.stands_before(work, more, cart, place, end) {
        return None;
    }
    let mut none_before = 0u16;
    for step in [2048, 1024, 512, 256, 128, 64, 32, 16, 8, 4, 2, 1] {
        let tick = none_before.saturating_add(step);
        if !branch.stands_before(work, more, cart, place, Tick(tick)) {
            none_before = tick;
        }
    }
    Some(Tick(none_before))
}

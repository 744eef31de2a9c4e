// Least lengths, where a cart can stand, and sums, on the small floor.
use crate::scene::Scene;
use floor::{Cart, Place, Tick};
use maps::ListMap;
use motion::{Ban, Length};
use samples::{small_floor, small_trips, trip};
use search::Branch;
use std::io;

const CART: Cart = Cart(0);

const OTHER: Cart = Cart(1);

pub fn run(rt: &HostRuntime) -> anyhow::Result<()> {
    let mut scene = Scene::new(
        rt,
        small_floor(ListMap::with_room(rt.alloc())?)?,
        small_trips(),
    )?;
    scene.tell_arrivals()?;
    scene.tell_closures()?;
    scene.tell_stands()?;
    scene.tell_sums()?;
    let mut back = Scene::new(
        rt,
        small_floor(ListMap::with_room(rt.alloc())?)?,
        [trip(4, 4), trip(0, 3)],
    )?;
    back.tell_least("from 4 to 4, late 0", CART, 10, &[late(0)])?;
    Ok(())
}

impl Scene<'_> {
    // The way from 0 to 3 takes three steps.
    fn tell_arrivals(&mut self) -> io::Result<()> {
        self.tell_least("no bans", CART, 10, &[])?;
        self.tell_least("no bans, searched below 3", CART, 3, &[])?;
        self.tell_least("a cart that is not there", Cart(2), 10, &[])?;
        for (what, limit, ban) in [
            ("no standing at the start at tick 0", 10, stand(0, 0)),
            ("no standing at 1 at tick 1", 10, stand(1, 1)),
            ("no standing at the target at tick 8", 20, stand(3, 8)),
            (
                "no standing at the target at tick 4,000",
                4000,
                stand(3, 4000),
            ),
            ("the same, searched further", 4002, stand(3, 4000)),
            ("late 4,000", 4002, late(4000)),
        ] {
            self.tell_least(what, CART, limit, &[ban])?;
        }
        Ok(())
    }

    fn tell_closures(&mut self) -> io::Result<()> {
        for (what, ban) in [
            (
                "no move from 1 to 2 arriving at tick 2",
                Ban::move_at(CART, Place(1), Place(2), Tick(2)),
            ),
            ("by 3", by(CART, 3)),
            ("by 2", by(CART, 2)),
            ("the other by 3", by(OTHER, 3)),
            ("the other by 2", by(OTHER, 2)),
        ] {
            self.tell_least(what, CART, 10, &[ban])?;
        }
        Ok(())
    }

    fn tell_least(&mut self, what: &str, cart: Cart, limit: u16, bans: &[Ban]) -> io::Result<()> {
        let branch = Branch {
            map: &self.map,
            trips: &self.trips,
            bans,
        };
        match branch.least_length(&mut self.work, cart, Length(Tick(limit))) {
            Some(length) => println!(self.rt; "{what}: {length}"),
            None => println!(self.rt; "{what}: none below {limit}"),
        }
    }

    fn tell_stands(&mut self) -> io::Result<()> {
        for (place, tick) in [(0, 0), (2, 1), (2, 2), (2, 9), (5, 9)] {
            let stands = self.can_stand(Place(place), Tick(tick), &[]);
            println!(self.rt; "can stand at {place} at tick {tick}: {stands}")?;
        }
        let stands = self.can_stand(Place(2), Tick(2), &[by(OTHER, 2)]);
        println!(self.rt; "can stand at 2 at tick 2, the other by 2: {stands}")
    }

    fn can_stand(&mut self, place: Place, tick: Tick, bans: &[Ban]) -> bool {
        let branch = Branch {
            map: &self.map,
            trips: &self.trips,
            bans,
        };
        branch.can_stand(&mut self.work, CART, place, tick)
    }

    // The least lengths are 3 and 1.
    fn tell_sums(&mut self) -> io::Result<()> {
        let branch = Branch {
            map: &self.map,
            trips: &self.trips,
            bans: &[],
        };
        for claim in [0, 4, 5] {
            let below = branch.cheaper(&mut self.work, claim);
            println!(self.rt; "a set that sums below {claim}: {below}")?;
        }
        Ok(())
    }
}

fn stand(place: u16, tick: u16) -> Ban {
    Ban::stand_at(CART, Place(place), Tick(tick))
}

fn late(tick: u16) -> Ban {
    Ban::Late {
        cart: CART,
        tick: Tick(tick),
    }
}

fn by(cart: Cart, tick: u16) -> Ban {
    Ban::By {
        cart,
        tick: Tick(tick),
    }
}

// Floors, trips and bans that are drawn from a seed.
use crate::small_floor::{SmallFloor, floor_count};
use floor::{Cart, Place, Tick};
use motion::{Ban, Trip};
use rand_core::utils::NextWord;
use rand_pcg::Pcg32;
use std::alloc::{AllocError, Global};

const LEAST_PLACES: u16 = 3;

const MOST_PLACES: u16 = 6;

const MOST_BANS: u16 = 4;

const MOST_TICK: u16 = 6;

// Two carts on a floor, under bans.
#[derive(Drop)]
pub struct Drawn {
    pub floor: SmallFloor,
    pub trips: [Trip; 2],
    pub bans: Vec<Ban>,
}

#[derive(Drop)]
pub struct Draw {
    words: Pcg32,
}

impl Draw {
    pub fn new(seed: u64) -> Draw {
        Draw {
            words: Pcg32::new(seed, 54),
        }
    }

    // A number below the count.
    fn below(&mut self, count: u16) -> u16 {
        let word = self.words.next_word() % u32::from(count.max(1));
        u16::try_from(word).unwrap_or(0)
    }

    pub fn drawn(&mut self, heap: Global) -> Result<Drawn, AllocError> {
        let places = LEAST_PLACES.saturating_add(self.below(MOST_PLACES - LEAST_PLACES + 1));
        let floor = self.floor(places);
        let trips = [self.trip(places), self.trip(places)];
        let bans = self.bans(heap, places)?;
        Ok(Drawn { floor, trips, bans })
    }

    // A floor with three of eight connections, so that corridors are many.
    fn floor(&mut self, places: u16) -> SmallFloor {
        let count = u16::try_from(floor_count(places)).unwrap_or(u16::MAX);
        let number = self.below(count) & (self.below(count) | self.below(count));
        SmallFloor::new(places, usize::from(number))
    }

    fn trip(&mut self, places: u16) -> Trip {
        Trip {
            start: self.place(places),
            target: self.place(places),
        }
    }

    // One ban at least.
    fn bans(&mut self, heap: Global, places: u16) -> Result<Vec<Ban>, AllocError> {
        let mut bans = vec![in heap; self.ban(places)]?;
        for _ in 0..self.below(MOST_BANS) {
            bans.push(self.ban(places))?;
        }
        Ok(bans)
    }

    // A ban of any kind on either cart. Its ticks may be none, where the last is before the first.
    fn ban(&mut self, places: u16) -> Ban {
        let cart = Cart(if self.below(2) == 0 { 0 } else { 1 });
        let from = self.place(places);
        let to = self.place(places);
        let first = self.tick();
        let last = self.tick();
        match self.below(4) {
            0 => Ban::Stand {
                cart,
                place: from,
                first,
                last,
            },
            1 => Ban::Move {
                cart,
                from,
                to,
                first,
                last,
            },
            2 => Ban::Late { cart, tick: first },
            _ => Ban::By { cart, tick: first },
        }
    }

    fn place(&mut self, places: u16) -> Place {
        Place(self.below(places))
    }

    fn tick(&mut self) -> Tick {
        Tick(self.below(MOST_TICK + 1))
    }
}

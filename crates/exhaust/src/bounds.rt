// How far the program goes.
use std::env;

// Up to how many places one, two and three carts are gone through, how many searches are compared, and how many splits
// a tree may have.
#[derive(Clone, Copy)]
pub struct Bounds {
    pub places: [u16; 3],
    pub searches: u32,
    pub splits: u32,
}

const USUAL: Bounds = Bounds {
    places: [6, 6, 5],
    searches: 20_000,
    splits: 100_000,
};

impl Bounds {
    // The usual bounds, or those that the arguments give.
    pub fn read(rt: &HostRuntime) -> anyhow::Result<Bounds> {
        let mut words = env::args(rt)?.skip(1);
        let mut bounds = USUAL;
        for most in &mut bounds.places {
            if let Some(word) = words.next() {
                *most = word.parse::<u16>()?.min(6);
            }
        }
        if let Some(word) = words.next() {
            bounds.searches = word.parse()?;
        }
        if let Some(word) = words.next() {
            bounds.splits = word.parse()?;
        }
        Ok(bounds)
    }
}

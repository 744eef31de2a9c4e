// How far the program goes.
use std::env;

// Up to how many places all floors are gone through, and how many floors are drawn.
#[derive(Clone, Copy)]
pub struct Bounds {
    pub places: u16,
    pub drawn: u32,
}

const USUAL: Bounds = Bounds {
    places: 6,
    drawn: 2_000,
};

impl Bounds {
    // The usual bounds, or those that the arguments give.
    pub fn read(rt: &HostRuntime) -> anyhow::Result<Bounds> {
        let mut words = env::args(rt)?.skip(1);
        let mut bounds = USUAL;
        if let Some(word) = words.next() {
            bounds.places = word.parse::<u16>()?.min(6);
        }
        if let Some(word) = words.next() {
            bounds.drawn = word.parse()?;
        }
        Ok(bounds)
    }
}

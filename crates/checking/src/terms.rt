use motion::Trip;

pub mod methods;

// What a check is opened with: a map, split rules, the carts' trips, the claimed sum and the number of its card.
#[derive(Drop)]
pub struct Terms<'a, M, R> {
    pub map: &'a M,
    pub rules: &'a R,
    pub trips: &'a [Trip],
    pub claim: u16,
    pub card: u32,
}

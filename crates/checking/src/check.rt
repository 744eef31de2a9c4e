use crate::book::Book;
use crate::terms::Terms;

pub mod methods;

// A check of a claim. It cannot be let go of either: settling takes it, and unfinished work settles as open.
pub struct Check<'a, M, R> {
    pub(crate) terms: Terms<'a, M, R>,
    pub(crate) book: Book,
}

// The card of a check. It cannot be let go of: only settling takes it back.
pub struct Card {
    pub(crate) number: u32,
}

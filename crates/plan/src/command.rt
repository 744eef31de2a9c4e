use crate::places::Places;
use floor::Cart;

// A command of a plan behind its heading, but for the `Z` at the end.
#[derive(Clone, Copy)]
pub enum Command<'a> {
    // Show a route of the cart: its places are a part of the file.
    Route { cart: Cart, places: Places<'a> },
    // Split the current branch by a letter, whose operands are the first of the bytes behind it.
    Split { letter: u8, behind: &'a [u8] },
    // Close the current branch.
    Close,
}

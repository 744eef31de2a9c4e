use floor::{Cart, Place};

// A call on a check: a value, since a list of them is run and the theorem speaks of such lists.
#[derive(Clone, Copy)]
pub enum Call<'a> {
    // Show the places as the route of the cart.
    Show { cart: Cart, places: &'a [Place] },
    // Split the current branch by a letter and its operands, behind which more bytes may stand.
    Split { letter: u8, operands: &'a [u8] },
    // Close the current branch.
    Close,
}

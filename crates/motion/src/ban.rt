ghost use Rattle.std.specs.Prelude.{◌≡◌, Some};
ghost use Rattle.motion.specs.BanTexts.{ban_text};
ghost use Rattle.motion.specs.declared.ban.Ban.TheVariants.{Stand, Move};

use floor::{Cart, Place, Tick};
use std::fmt;
use std::fmt::{Display, Formatter};

// What a branch forbids.
#[derive(Clone, Copy, PartialEq, Eq, Hash, Debug)]
pub enum Ban {
    // The cart is not at the place at any tick from `first` to `last`.
    Stand {
        cart: Cart,
        place: Place,
        first: Tick,
        last: Tick,
    },
    // The cart does not go from one place to the other arriving at a tick from `first` to `last`.
    Move {
        cart: Cart,
        from: Place,
        to: Place,
        first: Tick,
        last: Tick,
    },
    // The cart's length is more than the tick.
    Late {
        cart: Cart,
        tick: Tick,
    },
    // The cart's length is at most the tick, and from that tick on no other cart is at its target.
    By {
        cart: Cart,
        tick: Tick,
    },
}

// Bans of one tick.
impl Ban {
    pub fn stand_at(cart: Cart, place: Place, tick: Tick) -> Ban
        ensures { result ≡ Stand cart place tick tick }
    {
        Ban::Stand {
            cart,
            place,
            first: tick,
            last: tick,
        }
    }

    pub fn move_at(cart: Cart, from: Place, to: Place, arrival: Tick) -> Ban
        ensures { result ≡ Move cart from to arrival arrival }
    {
        Ban::Move {
            cart,
            from,
            to,
            first: arrival,
            last: arrival,
        }
    }
}

// A ban in words.
impl Display for Ban {
    ghost output = { λ ban. Some (ban_text ban) };

    fn fmt<W: fmt::Write>(&self, f: &mut Formatter<W>) -> fmt::Result {
        match *self {
            Ban::Stand {
                cart,
                place,
                first,
                last,
            } => write!(f, "cart {cart} not at {place} from tick {first} to {last}"),
            Ban::Move {
                cart,
                from,
                to,
                first,
                last,
            } => write!(
                f,
                "cart {cart} not from {from} to {to} at ticks {first} to {last}"
            ),
            Ban::Late { cart, tick } => write!(f, "cart {cart} with a length of more than {tick}"),
            Ban::By { cart, tick } => write!(
                f,
                "cart {cart} with a length of at most {tick}, and no other cart at its target from tick {tick} on"
            ),
        }
    }
}

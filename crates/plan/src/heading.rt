ghost use Rattle.std.specs.Prelude.{◌≡◌, ◌≤◌};
ghost use Rattle.cursor.specs.Rests.{rest_of};
ghost use Rattle.plan.specs.Commands.{commands};
ghost use Rattle.plan.specs.Cursors.{heading_of, trips_taken};
ghost use Rattle.plan.specs.FirstFault.{HeadingFaultsExactly};
ghost use Rattle.plan.specs.Headings.{heading, trips_at};
ghost use Rattle.plan.specs.Layout.{HeadingReadExactly};
ghost use Rattle.std.specs.Result.{result_map_both};

use crate::commands::Commands;
use crate::fault::Fault;
use arrayvec::ArrayVec;
use cursor::{Cursor, Missing};
use floor::Place;
use motion::Trip;
use splits::SplitRule;
use tally::Refusal;

// What a plan begins with: the claim and the carts' trips.
#[derive(Drop)]
pub struct Heading<'a> {
    pub claim: u16,
    pub trips: ArrayVec<Trip, 16>,
    pub(crate) behind: Cursor<'a>,
}

impl<'a> Heading<'a> {
    // The commands behind the heading.
    pub fn commands<R: SplitRule>(&self, rules: &'a R) -> Commands<'a, R>
        ensures { result ≡ commands (R.SplitRule.rules rules.now) 0 self.now.behind.at self.now.behind.bytes.now }
    {
        Commands {
            rules,
            rest: Some(self.behind),
        }
    }
}

// The heading of a plan.
#[tactic(auto, unfolding(crate::specs::Headings::heading))]
pub fn read_heading(bytes: &[u8]) -> Result<Heading<'_>, Fault>
    ensures is_the_reading { heading bytes.now ≡ result_map_both heading_of (λ f. f) result }
    ensures read_exactly { HeadingReadExactly bytes.now }
    ensures refused_exactly { HeadingFaultsExactly bytes.now }
{
    let ([high, low, carts], behind) = Cursor { bytes, at: 0 }.operands::<3>(b'O')?;
    if !(1..=16).contains(&carts) {
        return Err(Fault::of_call(Refusal::Carts, 0));
    }
    let (trips, behind) = read_trips(carts, behind)?;
    let claim = u16::from_be_bytes([high, low]);
    Ok(Heading {
        claim,
        trips,
        behind,
    })
}

// The trips of so many carts, and what is left behind them.
fn read_trips(carts: u8, mut rest: Cursor<'_>) -> Result<(ArrayVec<Trip, 16>, Cursor<'_>), Missing>
    requires { carts ≤ 16 }
    ensures { trips_at carts (rest_of rest.entry) ≡ result_map_both trips_taken (λ m. m) result }
{
    let mut trips = ArrayVec::new();
    for _ in 0..carts {
        let ([a, b, c, d], behind) = rest.operands::<4>(b'C')?;
        trips.push(Trip {
            start: Place(u16::from_be_bytes([a, b])),
            target: Place(u16::from_be_bytes([c, d])),
        });
        rest = behind;
    }
    Ok((trips, rest))
}

ghost use Rattle.std.specs.Prelude.{◌≡◌, ◌+◌, length};
ghost use Rattle.plan.specs.Commands.{route_found};
ghost use Rattle.plan.specs.Cursors.{as_found, found_at};

use crate::command::Command;
use crate::fault::{Fault, FileRefusal};
use crate::places::Places;
use cursor::Cursor;
use floor::Cart;
use splits::SplitRule;

// A command, and how many bytes behind its letter it takes.
pub type WithWidth<'a> = (Command<'a>, usize);

// The command that stands here: none where the plan ends.
pub fn command_at<'a, R: SplitRule>(
    here: Cursor<'a>,
    rules: &R,
) -> Result<Option<WithWidth<'a>>, Fault>
    ensures { found_at (R.SplitRule.rules rules.now) here.entry.at here.entry.bytes.now ≡ as_found result }
{
    match here.bytes {
        [b'R', behind @ ..] => route_at(here, behind),
        [b'X', ..] => Ok(Some((Command::Close, 0))),
        [b'Z'] => Ok(None),
        [b'Z', ..] => Err(Fault::of_file(FileRefusal::Trailing, here.at + 1)),
        [letter, behind @ ..] if rules.knows(*letter) => {
            let width = rules.width(*letter, behind).ok_or(here.cut_short())?;
            let letter = *letter;
            Ok(Some((Command::Split { letter, behind }, width)))
        }
        [_, ..] => Err(Fault::of_file(FileRefusal::Letter, here.at)),
        [] => Err(here.cut_short().into()),
    }
}

// The route whose letter stands here, before these bytes.
fn route_at<'a>(here: Cursor<'a>, behind: &'a [u8]) -> Result<Option<WithWidth<'a>>, Fault>
    requires { length here.bytes.now ≡ 1 + length behind.now }
    ensures { route_found here.entry.at behind.now ≡ as_found result }
{
    let [cart, steps, rest @ ..] = behind else {
        return Err(here.cut_short().into());
    };
    let size = 2 * (usize::from(*steps) + 1);
    let bytes = rest.get(..size).ok_or(here.cut_short())?;
    let places = Places { bytes };
    let cart = Cart(*cart);
    Ok(Some((Command::Route { cart, places }, 2 + size)))
}

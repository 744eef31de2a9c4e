use crate::command::Command;
use crate::fault::Fault;
use crate::letters::command_at;
use cursor::Cursor;
use splits::SplitRule;
use std::marker::Model;

// The commands of a plan behind its heading, each at its offset, up to the `Z` that ends it or the first fault of the
// file. In a contract it is the list of what is still to come, with the calls that the commands stand for.
#[derive(Drop)]
pub struct Commands<'a, R: SplitRule> {
    pub(crate) rules: &'a R,
    pub(crate) rest: Option<Cursor<'a>>,
}

impl<'a, R: SplitRule> Model for Commands<'a, R> {
    ghost use Rattle.std.specs.Prelude.{List};
    ghost use Rattle.plan.specs.Commands.{Item};
    ghost use Rattle.plan.specs.Cursors.{items_left};

    ghost Value = { List Item };

    ghost view = { λ s. items_left (R.SplitRule.rules s.rules.now) s.rest };
}

impl<'a, R: SplitRule> Iterator for Commands<'a, R> {
    ghost use Rattle.std.specs.Iterator.{YieldsFirstBy, item_count};
    ghost use Rattle.plan.specs.Cursors.{as_item};

    type Item = Result<(usize, Command<'a>), Fault>;

    ghost next_gives = { YieldsFirstBy as_item (λ left. left) };

    ghost remaining = { item_count (λ left. left) };

    fn next(&mut self) -> Option<Result<(usize, Command<'a>), Fault>> {
        let here = self.rest.take()?;
        match command_at(here, self.rules) {
            Ok(Some((command, width))) => {
                self.rest = Some(here.behind(1 + width));
                Some(Ok((here.at, command)))
            }
            Ok(None) => None,
            Err(fault) => Some(Err(fault)),
        }
    }
}

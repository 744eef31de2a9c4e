ghost use Rattle.std.specs.Prelude.{◌≡◌};
ghost use Rattle.checking.specs.Books.{tally_in};
ghost use Rattle.checking.specs.Checks.{opening_of, Answers};
ghost use Rattle.plan.specs.Commands.{call_of};
ghost use Rattle.plan.specs.SoundAndComplete.{PlanSoundAndComplete};
ghost use Rattle.plan.specs.Reading.{made_if_open, plan_reading};
ghost use Rattle.std.specs.Result.{result_map_both};

use crate::command::Command;
use crate::commands::Commands;
use crate::fault::Fault;
use crate::heading::read_heading;
use checking::{Check, Terms, open};
use floor::FloorMap;
use search::Workspace;
use splits::SplitRule;
use tally::{Refusal, Standing, Verdict};

// Reads a plan from its first byte to its last, makes its calls on a check of its claim, and settles that: the standing,
// or the first fault.
#[tactic(auto, unfolding(crate::specs::Reading::plan_reading))]
pub fn check_plan<M: FloorMap, R: SplitRule>(
    work: &mut Workspace,
    map: &M,
    rules: &R,
    bytes: &[u8],
) -> Result<Standing, Fault>
    ensures is_the_reading { result ≡ plan_reading (M.FloorMap.floor map.now) (R.SplitRule.rules rules.now) bytes.now }
    ensures sound_and_complete { PlanSoundAndComplete (M.FloorMap.floor map.now) (R.SplitRule.rules rules.now) bytes.now }
{
    let heading = read_heading(bytes)?;
    let terms = Terms {
        map,
        rules,
        trips: &heading.trips,
        claim: heading.claim,
        card: 0,
    };
    let (mut check, card) = open(terms);
    // no `?`: the check is settled even where a call is refused
    let made = make_calls(&mut check, work, heading.commands(rules));
    // never foreign: the card is the check's own
    let standing = check.settle(card).unwrap();
    made.map(|()| standing)
}

// Makes the calls that the commands stand for, unless the check is barred.
fn make_calls<M: FloorMap, R: SplitRule>(
    check: &mut Check<'_, M, R>,
    work: &mut Workspace,
    commands: Commands<'_, R>,
) -> Result<(), Fault>
    ensures all_made { made_if_open (opening_of M.FloorMap.floor R.SplitRule.rules check.old.terms) (tally_in check.old.book) commands.entry ≡ result_map_both (λ _. tally_in check.new.book) (λ f. f) result }
    ensures still { check.new.terms ≡ check.old.terms }
{
    if let Verdict::Barred(refusal) = check.standing().verdict {
        return Err(Fault::of_call(refusal, 0));
    }
    for command in commands {
        let (offset, command) = command?;
        make_call(check, work, command).map_err(|refusal| Fault::of_call(refusal, offset))?;
    }
    Ok(())
}

fn make_call<M: FloorMap, R: SplitRule>(
    check: &mut Check<'_, M, R>,
    work: &mut Workspace,
    command: Command<'_>,
) -> Result<(), Refusal>
    ensures answers { Answers (opening_of M.FloorMap.floor R.SplitRule.rules check.old.terms) check.old.book check.new.book (call_of command.entry) result }
    ensures still { check.new.terms ≡ check.old.terms }
{
    match command {
        Command::Route { cart, places } => check.show(cart, &places.decode()),
        Command::Split { letter, behind } => check.split(work, letter, behind),
        Command::Close => check.close(work),
    }
}

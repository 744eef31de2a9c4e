ghost use Rattle.checking.specs.CallsMade.{calls_in};
ghost use Rattle.checking.specs.Checks.{opening_of};
ghost use Rattle.checking.specs.Runs.{Follows, SoundAndComplete};

use crate::check::methods::open;
use crate::run::{CallAndStep, Run, Step};
use crate::terms::Terms;
use floor::FloorMap;
use search::Workspace;
use splits::SplitRule;

// Opens a check, makes the calls one after the other, and settles it with its own card.
pub fn run_calls<'a, M: FloorMap, R: SplitRule>(
    work: &mut Workspace,
    terms: Terms<'a, M, R>,
    calls: &mut [CallAndStep<'_>],
) -> Run
    ensures follows_the_tally { Follows (opening_of M.FloorMap.floor R.SplitRule.rules terms.entry) calls.old calls.new result }
    ensures sound_and_complete { SoundAndComplete (opening_of M.FloorMap.floor R.SplitRule.rules terms.entry) (calls_in calls.old) }
{
    let (mut check, card) = open(terms);
    let start = check.standing();
    for CallAndStep { call, step } in calls.iter_mut() {
        let answer = check.call(work, *call);
        let standing = check.standing();
        *step = Some(Step { answer, standing });
    }
    let settlement = check.settle(card);
    Run { start, settlement }
}

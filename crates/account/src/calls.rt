// The calls of a plan, told one by one with their answers.
use crate::answers::{Told, tell_refused, tell_standing, tell_taken};
use crate::bars::bar_of;
use crate::closings::tell_close;
use crate::opening::tell_fault;
use crate::routes::Shown;
use crate::scene::Scene;
use crate::shows::tell_show;
use crate::splitting::tell_split;
use checking::{Check, Terms, open};
use floor::FloorMap;
use plan::{Command, Commands, Heading};
use search::Workspace;
use splits::{OwnRules, own_rules};
use tally::Verdict;

// Opens a check on the plan's claim, tells its calls, and settles it; `last` is the offset of the file's last byte.
pub fn tell_check<M: FloorMap>(
    rt: &HostRuntime,
    work: &mut Workspace,
    map: &M,
    heading: &Heading,
    last: usize,
) -> anyhow::Result<()> {
    let rules = own_rules();
    let (trips, claim) = (&heading.trips, heading.claim);
    let (mut check, card) = open(Terms {
        map,
        rules: &rules,
        trips,
        claim,
        card: 0,
    });
    let mut scene = Scene::new(rt.alloc(), map, trips, claim);
    let told = tell_calls(rt, work, &mut check, &mut scene, heading.commands(&rules));
    // before `?`, as a check may not be let go
    let settlement = check.settle(card);
    if told? {
        println!(rt; "  {last}: settle")?;
        tell_standing(rt, settlement?)?;
    }
    Ok(())
}

// The opening's answer, and the calls up to the first fault: whether there was none.
fn tell_calls<'a, M: FloorMap>(
    rt: &HostRuntime,
    work: &mut Workspace,
    check: &mut Check<'_, M, OwnRules>,
    scene: &mut Scene<'a, M>,
    commands: Commands<'a, OwnRules>,
) -> anyhow::Result<bool> {
    let standing = check.standing();
    if let Verdict::Barred(refusal) = standing.verdict {
        tell_refused(rt, refusal, bar_of(scene.map, scene.claim, scene.trips))?;
        tell_standing(rt, standing)?;
        return Ok(false);
    }
    tell_taken(rt)?;
    tell_standing(rt, standing)?;
    for command in commands {
        let (offset, command) = match command {
            Ok(command) => command,
            Err(fault) => {
                tell_fault(rt, fault)?;
                return Ok(false);
            }
        };
        print!(rt; "  {offset}: ")?;
        let answer = tell_command(rt, work, check, scene, command)?;
        tell_standing(rt, check.standing())?;
        if answer.is_err() {
            return Ok(false);
        }
    }
    Ok(true)
}

// A command and its answer.
fn tell_command<'a, M: FloorMap>(
    rt: &HostRuntime,
    work: &mut Workspace,
    check: &mut Check<'_, M, OwnRules>,
    scene: &mut Scene<'a, M>,
    command: Command<'a>,
) -> Told {
    match command {
        Command::Route { cart, places } => tell_show(rt, check, scene, Shown { cart, places }),
        Command::Split { letter, behind } => tell_split(rt, work, check, scene, letter, behind),
        Command::Close => tell_close(rt, work, check, scene),
    }
}

// A split of the current branch, with its answer and its sides.
use crate::answers::{Told, tell_refused, tell_taken};
use crate::letters::Letter;
use crate::scene::Scene;
use crate::split_reasons::{SplitReason, test_split};
use checking::Check;
use floor::FloorMap;
use motion::Ban;
use search::Workspace;
use splits::{OwnRules, SplitRule, own_rules};
use std::io;

pub fn tell_split<M: FloorMap>(
    rt: &HostRuntime,
    work: &mut Workspace,
    check: &mut Check<'_, M, OwnRules>,
    scene: &Scene<'_, M>,
    letter: u8,
    behind: &[u8],
) -> Told {
    let split = Letter::read(letter, behind);
    tell_letter(rt, letter, split)?;
    let sides = sides(work, check, scene, letter, behind);
    let taken = check.standing().splits;
    let answer = check.split(work, letter, behind);
    match answer {
        Ok(()) => {
            tell_taken(rt)?;
            if let Some((left, right)) = sides {
                println!(rt; "    left: {left}")?;
                println!(rt; "    right: {right}")?;
            }
        }
        Err(refusal) => {
            let reason = split_reason(work, check, scene, taken, split);
            tell_refused(rt, refusal, reason)?;
        }
    }
    Ok(answer)
}

fn tell_letter(rt: &HostRuntime, letter: u8, split: Option<Letter>) -> io::Result<()> {
    let name = char::from(letter);
    match split {
        Some(split) => println!(rt; "split {name}: {split}"),
        None => println!(rt; "split {name}"),
    }
}

// The sides that the letter gives on the current branch. A check does not tell them.
fn sides<M: FloorMap>(
    work: &mut Workspace,
    check: &Check<'_, M, OwnRules>,
    scene: &Scene<'_, M>,
    letter: u8,
    behind: &[u8],
) -> Option<(Ban, Ban)> {
    let branch = scene.branch(check)?;
    own_rules().sides(work, &branch, letter, behind).ok()
}

fn split_reason<M: FloorMap>(
    work: &mut Workspace,
    check: &Check<'_, M, OwnRules>,
    scene: &Scene<'_, M>,
    taken: usize,
    split: Option<Letter>,
) -> Option<SplitReason> {
    test_split(work, scene.branch(check), taken, split?).err()
}

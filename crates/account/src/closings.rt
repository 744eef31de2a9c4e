// A closing of the current branch, with what its bans leave the carts, and its answer.
use crate::answers::{Reason, Told, tell_refused, tell_taken};
use crate::scene::Scene;
use checking::Check;
use floor::{Cart, FloorMap, Tick};
use motion::Length;
use search::{Branch, Workspace};
use splits::OwnRules;
use std::fmt::{Display, Formatter};
use std::{fmt, io};
use tally::Refusal;

#[derive(Clone, Copy)]
pub enum ClosingReason {
    NothingOpen,
    // the sum of a set that keeps the bans
    Cheaper(u32),
}

impl Display for ClosingReason {
    fn fmt<W: fmt::Write>(&self, f: &mut Formatter<W>) -> fmt::Result {
        match *self {
            ClosingReason::NothingOpen => write!(f, "no branch is open"),
            ClosingReason::Cheaper(sum) => write!(f, "a set that keeps the bans sums to {sum}"),
        }
    }
}

impl Reason for ClosingReason {
    fn refusal(&self) -> Refusal {
        match self {
            ClosingReason::NothingOpen => Refusal::NothingOpen,
            ClosingReason::Cheaper(_) => Refusal::CheaperSet,
        }
    }
}

pub fn tell_close<M: FloorMap>(
    rt: &HostRuntime,
    work: &mut Workspace,
    check: &mut Check<'_, M, OwnRules>,
    scene: &Scene<'_, M>,
) -> Told {
    println!(rt; "close")?;
    let reason = match scene.branch(check) {
        Some(branch) => tell_lengths(rt, work, &branch, scene.claim)?,
        None => Some(ClosingReason::NothingOpen),
    };
    let answer = check.close(work);
    match answer {
        Ok(()) => tell_taken(rt)?,
        Err(refusal) => tell_refused(rt, refusal, reason)?,
    }
    Ok(answer)
}

// The least lengths of all carts on a branch, each as far as it is below the claim, and their sum where all are: the
// reason not to close, if there is one.
fn tell_lengths<M: FloorMap>(
    rt: &HostRuntime,
    work: &mut Workspace,
    branch: &Branch<M>,
    claim: u16,
) -> io::Result<Option<ClosingReason>> {
    print!(rt; "    least lengths:")?;
    let mut sum = Some(0u32);
    for cart in (0..16).map(Cart).take(branch.trips.len()) {
        if cart.0 > 0 {
            print!(rt; ",")?;
        }
        let length = branch.least_length(work, cart, Length(Tick(claim)));
        match length {
            Some(length) => print!(rt; " cart {cart}: {length}")?,
            None => print!(rt; " cart {cart}: none below {claim}")?,
        }
        sum = add(sum, length);
    }
    match sum {
        Some(sum) => println!(rt; "; their sum is {sum}, and the claim is {claim}")?,
        None => println!(rt; "; the claim is {claim}")?,
    }
    Ok(
        sum.filter(|sum| *sum < u32::from(claim))
            .map(ClosingReason::Cheaper),
    )
}

// None where either is.
fn add(sum: Option<u32>, length: Option<Length>) -> Option<u32> {
    Some(sum?.saturating_add(u32::from(length?.0.0)))
}

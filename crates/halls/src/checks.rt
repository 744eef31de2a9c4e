// Whole checks of the small floor's plan, told call by call.
use crate::tell_each;
use checking::{Call, CallAndStep, Step, Terms, run_calls};
use floor::{Cart, Place};
use maps::AnyMap;
use samples::small_trips;
use search::Workspace;
use splits::own_rules;
use std::io;
use tally::{Refusal, Standing};

// Cart 1 waits at 4 until cart 0 has passed, so that the routes sum to 6. The check of that sum, of one that is
// too small, and of one that is above the limit.
pub fn tell_checks(rt: &HostRuntime, map: &AnyMap) -> anyhow::Result<()> {
    let calls = [
        Call::Close,
        Call::Show {
            cart: Cart(0),
            places: &[Place(0), Place(1), Place(2), Place(3)],
        },
        Call::Show {
            cart: Cart(1),
            places: &[Place(4), Place(4), Place(4), Place(2)],
        },
        Call::Split {
            letter: b'T',
            operands: &[1, 0, 2],
        },
        Call::Close,
        Call::Close,
        Call::Close,
    ];
    for claim in [6, 5, 4001] {
        let mut calls = calls.map(|call| CallAndStep { call, step: None });
        tell_calls(rt, map, claim, &mut calls)?;
    }
    Ok(())
}

fn tell_calls(
    rt: &HostRuntime,
    map: &AnyMap,
    claim: u16,
    calls: &mut [CallAndStep],
) -> anyhow::Result<()> {
    let mut work = Workspace::new(rt.alloc())?;
    let terms = Terms {
        map,
        rules: &own_rules(),
        trips: &small_trips(),
        claim,
        card: 7,
    };
    let run = run_calls(&mut work, terms, calls);
    print!(rt; "  check of {claim}:")?;
    tell_standing(rt, run.start)?;
    for CallAndStep { call, step } in calls.iter() {
        tell_call(rt, *call)?;
        if let Some(Step { answer, standing }) = *step {
            tell_answer(rt, answer)?;
            tell_standing(rt, standing)?;
        }
    }
    match run.settlement {
        Ok(standing) => {
            print!(rt; "    settled:")?;
            tell_standing(rt, standing)?;
        }
        Err(_) => println!(rt; "    foreign")?,
    }
    Ok(())
}

fn tell_call(rt: &HostRuntime, call: Call) -> io::Result<()> {
    match call {
        Call::Show { cart, places } => {
            print!(rt; "    show cart {cart}:")?;
            tell_each(rt, places)?;
        }
        Call::Split { letter, operands } => {
            print!(rt; "    split {}", char::from(letter))?;
            tell_each(rt, operands)?;
        }
        Call::Close => print!(rt; "    close")?,
    }
    print!(rt; ":")
}

fn tell_answer(rt: &HostRuntime, answer: Result<(), Refusal>) -> io::Result<()> {
    match answer {
        Ok(()) => print!(rt; " taken;"),
        Err(refusal) => print!(rt; " refused {} ({refusal});", refusal.number()),
    }
}

fn tell_standing(rt: &HostRuntime, standing: Standing) -> io::Result<()> {
    let Standing {
        verdict,
        branches,
        splits,
        closings,
    } = standing;
    println!(rt; " {verdict} ({branches} open, {splits} splits, {closings} closings)")
}

// Whole checks on the small floor, call by call.
//
// Cart 0 goes from 0 to 3, and cart 1 from 4 to 2. Each by itself needs 3 ticks and 1, and then cart 0 goes
// through 2 at tick 2, where cart 1 rests. So cart 1 waits until cart 0 has passed, and the sum is 3 + 3.
//
// S loses no set of routes, with conflicts or without, so by itself it raises no sum. It tells apart whether cart 1 goes
// to 2 at once, and each case needs another letter of ours:
// - left, it is not at 2 at tick 1, so its length is 2 or more. V at 2 at tick 2: without cart 0 there the sum is 4 + 2,
//   and without cart 1 there it is 3 + 3.
// - right, it is not at 4 at tick 1. T at tick 1: if its length is more than 1, it has been at 2 at tick 1, has left
//   it and has come back, which is 3 + 3; if not, no other cart is at 2 from tick 1 on, and cart 0 has no route.
//
// At the start neither letter is enough: V leaves 4 + 1, where cart 1 goes to 2 at once, and T leaves 3 + 2, where it
// waits for one tick.
use crate::rules;
use checking::{Call, CallAndStep, Step, Terms, run_calls};
use floor::{Cart, Place};
use maps::ListMap;
use samples::{small_floor, small_trips};
use search::Workspace;
use std::io;

pub fn run(rt: &HostRuntime) -> anyhow::Result<()> {
    let first = due(Call::Show {
        cart: Cart(0),
        places: &[Place(0), Place(1), Place(2), Place(3)],
    });
    let second = due(Call::Show {
        cart: Cart(1),
        places: &[Place(4), Place(4), Place(4), Place(2)],
    });
    let s = due(Call::Split {
        letter: b'S',
        operands: &[1, 4, 1],
    });
    let v = due(Call::Split {
        letter: b'V',
        operands: &[0, 1, 0, 2, 0, 2],
    });
    let t = due(Call::Split {
        letter: b'T',
        operands: &[1, 0, 1],
    });
    let close = due(Call::Close);
    let mut whole = [first, second, s, v, close, close, t, close, close];
    tell_check(rt, "S, and then V and T", &mut whole)?;
    tell_check(rt, "V alone", &mut [v, close])?;
    tell_check(rt, "T alone", &mut [t, close])
}

// A call that is still to be made.
fn due(call: Call<'_>) -> CallAndStep<'_> {
    CallAndStep { call, step: None }
}

// The check of a claim of 6.
fn tell_check(rt: &HostRuntime, what: &str, calls: &mut [CallAndStep<'_>]) -> anyhow::Result<()> {
    let mut work = Workspace::new(rt.alloc())?;
    let map = small_floor(ListMap::with_room(rt.alloc())?)?;
    let terms = Terms {
        map: &map,
        rules: &rules(),
        trips: &small_trips(),
        claim: 6,
        card: 0,
    };
    let run = run_calls(&mut work, terms, calls);
    println!(rt; "{what}:")?;
    for CallAndStep { call, step } in calls.iter() {
        tell_call(rt, *call)?;
        if let Some(step) = *step {
            tell_step(rt, step)?;
        }
    }
    match run.settlement {
        Ok(standing) => println!(rt; "  settled: {}", standing.verdict)?,
        Err(foreign) => println!(rt; "  settled: {foreign}")?,
    }
    Ok(())
}

fn tell_call(rt: &HostRuntime, call: Call) -> io::Result<()> {
    match call {
        Call::Show { cart, .. } => print!(rt; "  show cart {cart}:"),
        Call::Split { letter, .. } => print!(rt; "  split {}:", char::from(letter)),
        Call::Close => print!(rt; "  close:"),
    }
}

fn tell_step(rt: &HostRuntime, step: Step) -> io::Result<()> {
    match step.answer {
        Ok(()) => print!(rt; " taken")?,
        Err(refusal) => print!(rt; " refused {} ({refusal})", refusal.number())?,
    }
    println!(rt; ", {}", step.standing.verdict)
}

// What an opening or a call is answered, and what stands then.
use std::fmt::Display;
use std::io;
use tally::{Refusal, Standing};

// Why something is refused, in words.
pub trait Reason: Display + Drop {
    // the refusal that it is a reason of
    fn refusal(&self) -> Refusal;
}

// The answer to a call, if it could be told.
pub type Told = anyhow::Result<Result<(), Refusal>>;

pub fn tell_taken(rt: &HostRuntime) -> io::Result<()> {
    println!(rt; "    taken")
}

// A refusal, with its reason. One of another refusal would be wrong, and is left out.
pub fn tell_refused<R: Reason>(
    rt: &HostRuntime,
    refusal: Refusal,
    reason: Option<R>,
) -> io::Result<()> {
    print!(rt; "    refused {} ({refusal})", refusal.number())?;
    match reason {
        Some(reason) if reason.refusal() == refusal => println!(rt; ": {reason}"),
        _ => println!(rt; ""),
    }
}

pub fn tell_standing(rt: &HostRuntime, standing: Standing) -> io::Result<()> {
    let Standing {
        verdict,
        branches,
        splits,
        closings,
    } = standing;
    println!(rt;
        "    standing: {verdict} (open branches {branches}, splits {splits}, closings {closings})"
    )
}

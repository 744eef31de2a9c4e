#![tactic(auto)]

mod refusal;
mod standing;

ghost use Rattle.tally.specs.Laws.{CountsAfterAnyCalls, HonestSucceeds, OpeningTells, SoundAfterAnyCalls};

pub use refusal::Refusal;
pub use standing::{Foreign, Settlement, Standing, Verdict};

// What the answer to an opening says of it.
pub fn opening_tells()
    ensures { OpeningTells }
{}

// What holds of every check at the start and after every list of calls.
pub fn sound_after_any_calls()
    ensures { SoundAfterAnyCalls }
{}

// The splits and closings that a standing tells are those taken, after every list of calls.
pub fn counts_after_any_calls()
    ensures { CountsAfterAnyCalls }
{}

// An honest plan has each of its calls taken, in whatever order its shows come, and settles as least.
pub fn honest_succeeds()
    ensures { HonestSucceeds }
{}

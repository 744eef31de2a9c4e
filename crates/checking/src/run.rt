use crate::call::Call;
use tally::{Refusal, Settlement, Standing};

pub mod methods;

// The answer to a call, and the standing after it.
#[derive(Clone, Copy)]
pub struct Step {
    pub answer: Result<(), Refusal>,
    pub standing: Standing,
}

// A call, and room for the step that comes of it.
#[derive(Clone, Copy)]
pub struct CallAndStep<'a> {
    pub call: Call<'a>,
    // nothing until the call is made
    pub step: Option<Step>,
}

// A check's standing at its start, and its settlement.
#[derive(Clone, Copy)]
pub struct Run {
    pub start: Standing,
    pub settlement: Settlement,
}

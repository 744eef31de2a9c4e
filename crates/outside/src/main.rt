// A split rule and a kind of map, both written outside the crates of their interfaces, in whole checks and whole plans
// beside our own.
#![tactic(auto)]

mod calls;
mod letters;
mod plans;
mod row;
mod rows;
mod single;

ghost use Rattle.std.specs.Prelude.{◌≡◌};
ghost use Rattle.outside.specs.Single.{single_rules};
ghost use Rattle.splits.specs.Beside.{beside};
ghost use Rattle.splits.specs.Own.{own};

use single::{Single, single_rule};
use splits::{Beside, OwnRules, SplitRule, own_rules};

fn main(rt: HostRuntime) -> anyhow::Result<()> {
    run(&rt)
}

fn run(rt: &HostRuntime) -> anyhow::Result<()> {
    letters::run(rt)?;
    rows::run(rt)?;
    calls::run(rt)?;
    plans::run(rt)
}

// Our own letters, and S.
fn rules() -> Beside<OwnRules, Single>
    ensures { ⟦<Beside<OwnRules, Single> as SplitRule>⟧.rules result ≡ beside own single_rules }
{
    Beside {
        first: own_rules(),
        second: single_rule(),
    }
}

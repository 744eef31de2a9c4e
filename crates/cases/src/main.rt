// Runs worked cases of routes, conflicts, least lengths, splits and whole plans, and prints what comes of each, and the
// number and the word of each refusal.
#![tactic(auto)]

mod lengths;
mod plans;
mod routes;
mod scene;
mod splitting;
mod words;
mod worked;

use worked::worked_cases;

fn main(rt: HostRuntime) -> anyhow::Result<()> {
    run(&rt)
}

fn run(rt: &HostRuntime) -> anyhow::Result<()> {
    println!(rt; "{} worked cases are proved", worked_cases())?;
    routes::run(rt)?;
    lengths::run(rt)?;
    splitting::run(rt)?;
    plans::run(rt)?;
    words::run(rt)
}

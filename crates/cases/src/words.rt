// The number and the word of each refusal, and what is said of a foreign card.
use maps::MapRefusal;
use motion::RouteRefusal;
use plan::FileRefusal;
use splits::SplitRefusal;
use tally::{Foreign, Refusal};

pub fn run(rt: &HostRuntime) -> anyhow::Result<()> {
    tell_maps(rt)?;
    tell_routes(rt)?;
    tell_splits(rt)?;
    tell_calls(rt)?;
    tell_files(rt)?;
    Ok(println!(rt; "foreign: {Foreign}")?)
}

fn tell_maps(rt: &HostRuntime) -> anyhow::Result<()> {
    for refusal in [
        MapRefusal::Headless,
        MapRefusal::Gauge,
        MapRefusal::Ragged,
        MapRefusal::StrangeSign,
        MapRefusal::Count,
        MapRefusal::NoPlace,
        MapRefusal::Twice,
        MapRefusal::Crowded,
        MapRefusal::Letter,
        MapRefusal::CutShort,
    ] {
        println!(rt; "map {} {refusal}", refusal.number())?;
    }
    Ok(())
}

fn tell_routes(rt: &HostRuntime) -> anyhow::Result<()> {
    for refusal in [RouteRefusal::NoPlace, RouteRefusal::NoRoute] {
        println!(rt; "route {} {refusal}", refusal.number())?;
    }
    Ok(())
}

fn tell_splits(rt: &HostRuntime) -> anyhow::Result<()> {
    for refusal in [
        SplitRefusal::NoCart,
        SplitRefusal::NoPlace,
        SplitRefusal::BadTick,
        SplitRefusal::Unlawful,
    ] {
        println!(rt; "split {} {refusal}", refusal.number())?;
    }
    Ok(())
}

fn tell_calls(rt: &HostRuntime) -> anyhow::Result<()> {
    for refusal in [
        Refusal::NoPlace,
        Refusal::Carts,
        Refusal::Shared,
        Refusal::Claim,
        Refusal::NoCart,
        Refusal::Shown,
        Refusal::BadRoute,
        Refusal::InConflict,
        Refusal::NothingOpen,
        Refusal::Full,
        Refusal::BadTick,
        Refusal::Unlawful,
        Refusal::CheaperSet,
        Refusal::Letter,
        Refusal::CutShort,
    ] {
        println!(rt; "call {} {refusal}", refusal.number())?;
    }
    Ok(())
}

fn tell_files(rt: &HostRuntime) -> anyhow::Result<()> {
    for refusal in [
        FileRefusal::Letter,
        FileRefusal::CutShort,
        FileRefusal::Trailing,
    ] {
        println!(rt; "file {} {refusal}", refusal.number())?;
    }
    Ok(())
}

// The rule's answers beside those of this program.
use crate::answer::Fault;
use crate::counts::Counts;
use crate::operands::{Operands, Ranges};
use crate::planted::Planted;
use crate::setting::Case;
use motion::Ban;
use search::Workspace;
use splits::{SplitRefusal, SplitRule, own_rules};
use std::io;

// Asks the rule, and counts.
#[derive(Drop)]
pub struct Comparison<'a> {
    rt: &'a HostRuntime,
    work: Workspace,
    planted: Planted,
    pub counts: Counts,
}

impl<'a> Comparison<'a> {
    pub fn new(rt: &'a HostRuntime) -> anyhow::Result<Comparison<'a>> {
        Comparison::planted(rt, Planted::Nothing)
    }

    pub fn planted(rt: &'a HostRuntime, planted: Planted) -> anyhow::Result<Comparison<'a>> {
        Ok(Comparison {
            rt,
            work: Workspace::new(rt.alloc())?,
            planted,
            counts: Counts::default(),
        })
    }

    // All operands of the ranges.
    pub fn compare_all(&mut self, case: &Case, ranges: &Ranges) -> io::Result<()> {
        for number in 0..ranges.count() {
            if let Some(o) = ranges.operands(number) {
                self.compare(case, o)?;
            }
        }
        Ok(())
    }

    fn compare(&mut self, case: &Case, o: Operands) -> io::Result<()> {
        let answer = self.planted.answer(case, o);
        let rules = own_rules();
        let told = rules.sides(&mut self.work, &case.branch(), b'K', &o.bytes());
        let differs = !is_same(answer, told);
        self.counts.add(answer, differs);
        if differs && self.planted == Planted::Nothing {
            tell_difference(self.rt, case, o)?;
        }
        Ok(())
    }
}

// Whether both give the same two bans, or the same number.
fn is_same(answer: Result<(Ban, Ban), Fault>, told: Result<(Ban, Ban), SplitRefusal>) -> bool {
    match (answer, told) {
        (Ok(bans), Ok(told)) => bans == told,
        (Err(fault), Err(refusal)) => fault.number() == refusal.number(),
        _ => false,
    }
}

fn tell_difference(rt: &HostRuntime, case: &Case, o: Operands) -> io::Result<()> {
    let floor = case.setting.floor;
    print!(rt;
        "difference on floor {} of {} places, trips",
        floor.number, floor.places
    )?;
    for trip in &case.trips {
        print!(rt; " {}-{}", trip.start, trip.target)?;
    }
    println!(rt;
        ": K {} {} {} {} {} {} {}",
        o.a, o.b, o.p, o.q, o.k, o.m, o.n
    )?;
    for ban in case.bans {
        println!(rt; "    {ban}")?;
    }
    Ok(())
}

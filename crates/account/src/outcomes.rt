// What a settlement means for the hall.
use std::io;
use tally::Verdict;

pub fn tell_meaning(rt: &HostRuntime, verdict: Verdict, claim: u16) -> io::Result<()> {
    let none = "So no conflict-free set of routes for these carts on this floor sums to less than";
    match verdict {
        Verdict::Least(sum) => { println!(rt; "{none} {sum}, and the routes shown sum to {sum}.") }
        Verdict::OtherSum(sum) => {
            println!(rt; "{none} {claim}; the routes shown are free of conflict and sum to {sum}.")
        }
        Verdict::Unshown(_) => {
            println!(rt; "{none} {claim}; whether one sums to {claim} is not shown.")
        }
        Verdict::Open(_) => {
            println!(rt; "So nothing is shown of the claim {claim} yet: a branch is open.")
        }
        Verdict::Barred(_) => tell_nothing(rt),
    }
}

pub fn tell_nothing(rt: &HostRuntime) -> io::Result<()> {
    println!(rt; "So the plan shows nothing.")
}

ghost use Rattle.std.specs.Prelude.{◌≡◌, codes, length};
ghost use Rattle.cases.specs.Worked.{line_of, worked, WorkedCases};

use report::{Fault, Memory, check_files};
use tally::Standing;

// How many cases are worked out by hand and proved to come to what they should.
#[tactic(auto, using(crate::proofs::Cases::worked_cases))]
pub fn worked_cases() -> usize
    ensures count { result ≡ length worked }
    ensures all_come_out { WorkedCases }
{
    24
}

// The small floor's plan, by the checker itself.
pub fn settle_small_floor(memory: &mut Memory) -> Result<Standing, Fault>
    ensures least_6 { line_of result ≡ codes "least 6" }
{
    let map = b"P\0\x05W\0\0\0\x01W\0\x01\0\x02W\0\x02\0\x03W\0\x02\0\x04";
    let plan =
        b"O\0\x06\x02C\0\0\0\x03C\0\x04\0\x02R\0\x03\0\0\0\x01\0\x02\0\x03R\x01\x03\0\x04\0\x04\0\x04\0\x02T\x01\0\x02XXZ";
    check_files(memory, map, plan)
}

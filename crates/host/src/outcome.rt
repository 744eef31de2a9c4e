ghost use Rattle.std.specs.Prelude.{◌≡◌};
ghost use Rattle.host.specs.Outcomes.{fault_bytes, kind_of, outcome_bytes, standing_bytes};
ghost use Rattle.tally.specs.Standings.{number_in};
ghost use Rattle.report.specs.Files.{files_reading};

use report::{Fault, Memory, check_files};
use tally::{Standing, Verdict};

// What the two files come to.
pub fn outcome_of(memory: &mut Memory, map: &[u8], plan: &[u8]) -> [u8; 8]
    ensures { result ≡ outcome_bytes (files_reading map.now plan.now) }
{
    match check_files(memory, map, plan) {
        Ok(standing) => standing_bytes(standing),
        Err(fault) => fault_bytes(fault),
    }
}

// The outcome where the files come to a standing. Its number is at most 4,080, so the remainder takes nothing from it.
fn standing_bytes(standing: Standing) -> [u8; 8]
    ensures { result ≡ standing_bytes standing }
{
    let [high, low] = ((number_in(standing.verdict) % 65536) as u16).to_be_bytes();
    [kind_of(standing.verdict), high, low, 0, 0, 0, 0, 0]
}

// The outcome where they have a fault. Its offset is in its file or at its end, so the remainder takes nothing from it.
fn fault_bytes(fault: Fault) -> [u8; 8]
    ensures { result ≡ fault_bytes fault }
{
    let [a, b, c, d] = ((fault.offset() % 4294967296) as u32).to_be_bytes();
    [0, 0, fault.number(), fault.layer().number(), a, b, c, d]
}

// Which of the outcomes a verdict is. No plan comes to a standing that is barred.
fn kind_of(verdict: Verdict) -> u8
    ensures { result ≡ kind_of verdict }
{
    match verdict {
        Verdict::Barred(_) => 0,
        Verdict::Least(_) => 1,
        Verdict::Open(_) => 2,
        Verdict::Unshown(_) => 3,
        Verdict::OtherSum(_) => 4,
    }
}

// The number that stands behind a verdict's word.
fn number_in(verdict: Verdict) -> usize
    ensures { result ≡ number_in verdict }
{
    match verdict {
        Verdict::Barred(refusal) => usize::from(refusal.number()),
        Verdict::Open(branches) => branches,
        Verdict::Unshown(carts) => carts,
        Verdict::OtherSum(sum) => sum,
        Verdict::Least(claim) => claim,
    }
}

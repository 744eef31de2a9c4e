// The entry for C and C++: include/settle.h declares it.
#![tactic(auto)]

mod outcome;

ghost use Rattle.std.specs.Prelude.{◌≡◌};
ghost use Rattle.host.specs.Entry.{EntryAnswers};
ghost use Rattle.report.specs.SoundAndComplete.{FilesSoundAndComplete};

use outcome::outcome_of;
use report::Memory;
use std::alloc::Global;

// The longest file that is read.
const MOST_BYTES: usize = 65536;

// Checks the plan on the map's floor. Returns 0 with the outcome in the first eight bytes of `out`; 24 where `out` is
// shorter or a file too long, and 1 where memory is wanting, both with `out` as it was.
#[unsafe(no_mangle)]
pub extern "C" fn settle_files(heap: Global, map: &[u8], plan: &[u8], out: &mut [u8]) -> u32
    ensures answers { EntryAnswers map.now plan.now out.old out.new result }
    ensures sound_and_complete { FilesSoundAndComplete map.now plan.now }
{
    if out.len() < 8 || map.len() > MOST_BYTES || plan.len() > MOST_BYTES {
        return 24;
    }
    let Ok(mut memory) = Memory::new(heap) else {
        return 1;
    };
    out[..8].copy_from_slice(&outcome_of(&mut memory, map, plan));
    0
}

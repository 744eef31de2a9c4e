ghost use Rattle.std.specs.Prelude.{◌≡◌};
ghost use Rattle.report.specs.Files.{files_reading};
ghost use Rattle.report.specs.SoundAndComplete.{FilesSoundAndComplete};

use crate::fault::Fault;
use crate::memory::Memory;
use mapfile::read_map;
use plan::check_plan;
use splits::own_rules;
use tally::Standing;

// Reads the map, and then the plan on its floor, with our own four letters: the standing that the plan comes to, or the
// first fault. The memory serves for other files afterwards, whatever came of these.
#[tactic(auto, unfolding(crate::specs::Files::files_reading))]
pub fn check_files(memory: &mut Memory, map: &[u8], plan: &[u8]) -> Result<Standing, Fault>
    ensures is_the_reading { result ≡ files_reading map.now plan.now }
    ensures sound_and_complete { FilesSoundAndComplete map.now plan.now }
{
    let map = read_map(&mut memory.map, map)?;
    let standing = check_plan(&mut memory.work, &map, &own_rules(), plan)?;
    Ok(standing)
}

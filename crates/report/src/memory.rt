ghost use Rattle.std.specs.Prelude.{IfOk};
ghost use Rattle.report.specs.Memories.{Fresh};

use mapfile::MapMemory;
use search::Workspace;
use std::alloc::{AllocError, Global};

// All the memory that reading and checking ever need. Only `new` asks for any.
#[derive(Drop)]
pub struct Memory {
    pub map: MapMemory,
    pub work: Workspace,
}

impl Memory {
    pub fn new(heap: Global) -> Result<Memory, AllocError>
        ensures { IfOk result (λ m. Fresh m) }
    {
        Ok(Memory {
            map: MapMemory::new(heap)?,
            work: Workspace::new(heap)?,
        })
    }
}

// The memory that searches use, made before them.
ghost use Rattle.std.specs.Prelude.{◌≡◌, false, replicate, IfOk, vec_len};

use std::alloc::{AllocError, Global};

// Two rows, each with a mark for every place that a floor can have: that of a tick, and the one that is written next.
// They are lent and swapped, so that a search asks for no memory.
#[derive(Drop)]
pub struct Workspace {
    pub(crate) row: Vec<bool>,
    pub(crate) other: Vec<bool>,
    ghost whole: { (vec_len row ≡ 1024) × (vec_len other ≡ 1024) },
}

impl Workspace {
    pub fn new(heap: Global) -> Result<Workspace, AllocError>
        ensures { IfOk result (λ w. (w.row.items ≡ replicate 1024 false) × (w.other.items ≡ replicate 1024 false)) }
    {
        let row = vec![in heap; false; 1024]?;
        let other = vec![in heap; false; 1024]?;
        Ok(Workspace { row, other })
    }
}

ghost use Rattle.std.specs.Prelude.{◌≡◌, Some};
ghost use Rattle.mapfile.specs.Faults.{fault, fault_text, missing_fault};

use cursor::{Lack, Missing};
use maps::MapRefusal;
use std::error::Error;
use std::fmt;
use std::fmt::{Display, Formatter};

// What is wrong in a map file, and where: the offset from the file's first byte.
#[derive(Clone, Copy, PartialEq, Eq, Debug)]
pub struct Fault {
    pub refusal: MapRefusal,
    pub offset: usize,
}

impl Fault {
    pub(crate) fn new(refusal: MapRefusal, offset: usize) -> Fault
        ensures { result ≡ fault refusal offset }
    {
        Fault { refusal, offset }
    }
}

impl From<Missing> for Fault {
    ghost from_gives = { λ m f. f ≡ missing_fault m };

    fn from(missing: Missing) -> Fault {
        let refusal = match missing.lack {
            Lack::Letter => MapRefusal::Letter,
            Lack::CutShort => MapRefusal::CutShort,
        };
        Fault::new(refusal, missing.offset)
    }
}

impl Display for Fault {
    ghost output = { λ f. Some (fault_text f) };

    fn fmt<W: fmt::Write>(&self, f: &mut Formatter<W>) -> fmt::Result {
        write!(f, "refused map {} {}", self.refusal.number(), self.offset)
    }
}

impl Error for Fault {}

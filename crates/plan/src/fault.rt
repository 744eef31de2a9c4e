ghost use Rattle.std.specs.Prelude.{◌≡◌, Some};
ghost use Rattle.plan.specs.Faults.{call_fault, fault_text, file_fault, file_number, file_word, missing_fault};

use cursor::{Lack, Missing};
use std::error::Error;
use std::fmt;
use std::fmt::{Display, Formatter};
use tally::Refusal;

// What is wrong with a plan file itself.
#[derive(Clone, Copy, PartialEq, Eq, Debug)]
pub enum FileRefusal {
    // a letter that no rule knows, or one out of its place
    Letter = 21,
    // the file ends within a command, or before `Z`
    CutShort = 22,
    // bytes behind `Z`
    Trailing = 23,
}

impl FileRefusal {
    pub fn number(self) -> u8
        ensures { result ≡ file_number self }
    {
        self as u8
    }
}

// The word.
impl Display for FileRefusal {
    ghost output = { λ refusal. Some (file_word refusal) };

    fn fmt<W: fmt::Write>(&self, f: &mut Formatter<W>) -> fmt::Result {
        f.write_str(match self {
            FileRefusal::Letter => "letter",
            FileRefusal::CutShort => "cut short",
            FileRefusal::Trailing => "trailing",
        })
    }
}

impl Error for FileRefusal {}

// Why a plan is refused: for what its file is, or by the check.
#[derive(Clone, Copy, PartialEq, Eq, Debug)]
pub enum PlanRefusal {
    File(FileRefusal),
    Call(Refusal),
}

// What is wrong first in a plan file, and where: the offset from the file's first byte.
#[derive(Clone, Copy, PartialEq, Eq, Debug)]
pub struct Fault {
    pub refusal: PlanRefusal,
    pub offset: usize,
}

impl Fault {
    pub(crate) fn of_file(refusal: FileRefusal, offset: usize) -> Fault
        ensures { result ≡ file_fault refusal offset }
    {
        Fault {
            refusal: PlanRefusal::File(refusal),
            offset,
        }
    }

    pub(crate) fn of_call(refusal: Refusal, offset: usize) -> Fault
        ensures { result ≡ call_fault refusal offset }
    {
        Fault {
            refusal: PlanRefusal::Call(refusal),
            offset,
        }
    }
}

impl From<Missing> for Fault {
    ghost from_gives = { λ m f. f ≡ missing_fault m };

    fn from(missing: Missing) -> Fault {
        let refusal = match missing.lack {
            Lack::Letter => FileRefusal::Letter,
            Lack::CutShort => FileRefusal::CutShort,
        };
        Fault::of_file(refusal, missing.offset)
    }
}

impl Display for Fault {
    ghost output = { λ f. Some (fault_text f) };

    fn fmt<W: fmt::Write>(&self, f: &mut Formatter<W>) -> fmt::Result {
        match self.refusal {
            PlanRefusal::File(refusal) => {
                write!(f, "refused file {} {}", refusal.number(), self.offset)
            }
            PlanRefusal::Call(refusal) => {
                write!(f, "refused call {} {}", refusal.number(), self.offset)
            }
        }
    }
}

impl Error for Fault {}

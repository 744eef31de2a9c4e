ghost use Rattle.std.specs.Prelude.{◌≡◌, Some};
ghost use Rattle.report.specs.Faults.{fault_text, layer_number, layer_of, number_of, offset_of};
ghost use Rattle.report.specs.declared.fault.Fault.TheVariants.{Map as MapFault, Plan as PlanFault};

use plan::PlanRefusal;
use std::error::Error;
use std::fmt;
use std::fmt::{Display, Formatter};

// Whose a refusal is: the map's, the plan file's, or that of a call on the check.
#[derive(Clone, Copy, PartialEq, Eq, Debug)]
pub enum Layer {
    Map = 1,
    File = 2,
    Call = 3,
}

impl Layer {
    pub fn number(self) -> u8
        ensures { result ≡ layer_number self }
    {
        self as u8
    }
}

// What is wrong first in the two files.
#[derive(Clone, Copy, PartialEq, Eq, Debug)]
pub enum Fault {
    Map(mapfile::Fault),
    Plan(plan::Fault),
}

impl Fault {
    pub fn layer(self) -> Layer
        ensures { result ≡ layer_of self }
    {
        match self {
            Fault::Map(_) => Layer::Map,
            Fault::Plan(fault) => match fault.refusal {
                PlanRefusal::File(_) => Layer::File,
                PlanRefusal::Call(_) => Layer::Call,
            },
        }
    }

    pub fn number(self) -> u8
        ensures { result ≡ number_of self }
    {
        match self {
            Fault::Map(fault) => fault.refusal.number(),
            Fault::Plan(fault) => match fault.refusal {
                PlanRefusal::File(refusal) => refusal.number(),
                PlanRefusal::Call(refusal) => refusal.number(),
            },
        }
    }

    pub fn offset(self) -> usize
        ensures { result ≡ offset_of self }
    {
        match self {
            Fault::Map(fault) => fault.offset,
            Fault::Plan(fault) => fault.offset,
        }
    }
}

impl From<mapfile::Fault> for Fault {
    ghost from_gives = { λ f r. r ≡ MapFault f };

    fn from(fault: mapfile::Fault) -> Self {
        Self::Map(fault)
    }
}

impl From<plan::Fault> for Fault {
    ghost from_gives = { λ f r. r ≡ PlanFault f };

    fn from(fault: plan::Fault) -> Self {
        Self::Plan(fault)
    }
}

impl Display for Fault {
    ghost output = { λ f. Some (fault_text f) };

    fn fmt<W: fmt::Write>(&self, f: &mut Formatter<W>) -> fmt::Result {
        match self {
            Fault::Map(fault) => write!(f, "{fault}"),
            Fault::Plan(fault) => write!(f, "{fault}"),
        }
    }
}

impl Error for Fault {}

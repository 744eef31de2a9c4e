ghost use Rattle.std.specs.Prelude.{◌≡◌, Some};
ghost use Rattle.maps.specs.Refusals.{number_of, word_of};

use std::error::Error;
use std::fmt;
use std::fmt::{Display, Formatter};

// Why a map is refused.
#[derive(Clone, Copy, PartialEq, Eq, Debug)]
pub enum MapRefusal {
    // a line before a grid's rows is wrong
    Headless = 1,
    // a grid's height or width is not 1 to 32
    Gauge = 2,
    // a grid's row is too short, too long or not ended, or something stands behind the last one
    Ragged = 3,
    // a sign that is neither free nor blocked
    StrangeSign = 4,
    // not 1 to 1,024 places, or more than 4,096 connections
    Count = 5,
    // a place that is not on the floor
    NoPlace = 6,
    // a connection from a place to itself, or one that is there already
    Twice = 7,
    // a ninth neighbour
    Crowded = 8,
    // a letter that is unknown or out of its place
    Letter = 21,
    // the bytes end within a command
    CutShort = 22,
}

impl MapRefusal {
    pub fn number(self) -> u8
        ensures { result ≡ number_of self }
    {
        self as u8
    }
}

impl Display for MapRefusal {
    ghost output = { λ refusal. Some (word_of refusal) };

    fn fmt<W: fmt::Write>(&self, f: &mut Formatter<W>) -> fmt::Result {
        let word = match self {
            Self::Headless => "headless",
            Self::Gauge => "gauge",
            Self::Ragged => "ragged",
            Self::StrangeSign => "strange sign",
            Self::Count => "count",
            Self::NoPlace => "no place",
            Self::Twice => "twice",
            Self::Crowded => "crowded",
            Self::Letter => "letter",
            Self::CutShort => "cut short",
        };
        f.write_str(word)
    }
}

impl Error for MapRefusal {}

//! Why a text is no list of records.
ghost use Rattle.std.specs.Prelude.{◌≡◌};
ghost use Rattle.lines.specs.Refusals.{lines_refusal};

use std::error::Error;
use std::fmt;

/// The part of the reading that refuses.
#[derive(Clone, Copy, PartialEq, Eq, Debug)]
pub enum Layer {
    Lines,
    Names,
    Audit,
}

/// What a user is told of a refusal. A place counts the bytes before it.
#[derive(Clone, Copy, PartialEq, Eq, Debug)]
pub struct Refusal {
    pub number: u8,
    pub place: usize,
    pub layer: Layer,
}

/// Each case but the first holds the place.
#[derive(Clone, Copy, PartialEq, Eq, Debug)]
pub enum LinesFault {
    TooLong,
    ForeignByte(usize),
    StrayBreak(usize),
    FieldCount(usize),
}

impl LinesFault {
    /// What a user is told: the fault's number and place.
    pub fn refusal(self) -> Refusal
        ensures { result ≡ lines_refusal self }
    {
        let (number, place) = match self {
            LinesFault::TooLong => (1, 0),
            LinesFault::ForeignByte(at) => (2, at),
            LinesFault::StrayBreak(at) => (3, at),
            LinesFault::FieldCount(at) => (4, at),
        };
        Refusal {
            number,
            place,
            layer: Layer::Lines,
        }
    }
}

impl fmt::Display for LinesFault {
    ghost use Rattle.std.specs.Prelude.{Some};
    ghost use Rattle.lines.specs.Messages.{lines_message};

    ghost output = { λ e. Some (lines_message e) };

    fn fmt<W: fmt::Write>(&self, f: &mut fmt::Formatter<W>) -> fmt::Result {
        match self {
            LinesFault::TooLong => f.write_str("the text is too long"),
            LinesFault::ForeignByte(at) => write!(f, "byte {at}: no byte of a record"),
            LinesFault::StrayBreak(at) => write!(f, "byte {at}: a stray line break"),
            LinesFault::FieldCount(at) => write!(f, "byte {at}: a wrong number of fields"),
        }
    }
}

impl Error for LinesFault {}

//! Why a text of records is no table.
ghost use Rattle.std.specs.Prelude.{◌≡◌};
ghost use Rattle.tables.specs.Refusals.{refused, names_refusal, apart_refusal};
ghost use Rattle.tables.specs.declared.fault.NamesFault.TheVariants.{Lines as OfLines, Memory as OutOfMemory};
ghost use Rattle.tables.specs.declared.fault.ApartFault.TheVariants.{Names as OfNames};

use lines::fault::{Layer, LinesFault, Refusal};
use std::alloc::{AllocError, AllocFailed};
use std::error::Error;
use std::fmt;

/// A fault of the lines below stands whole in `Lines`; the others but the last hold the place of their field.
#[derive(Clone, Copy, PartialEq, Eq, Debug)]
pub enum NamesFault {
    Lines(LinesFault),
    Header(usize),
    NoName(usize),
    TooMany(usize),
    Unknown(usize),
    OtherProcess(usize),
    WithItself(usize),
    Again(usize),
    Memory,
}

fn at(number: u8, place: usize) -> Option<Refusal>
    ensures { result ≡ refused number place }
{
    Some(Refusal {
        number,
        place,
        layer: Layer::Names,
    })
}

impl NamesFault {
    /// What a user is told; none where it is no fault of the text but memory that was wanting.
    pub fn refusal(self) -> Option<Refusal>
        ensures { result ≡ names_refusal self }
    {
        match self {
            NamesFault::Lines(fault) => Some(fault.refusal()),
            NamesFault::Header(place) => at(5, place),
            NamesFault::NoName(place) => at(6, place),
            NamesFault::TooMany(place) => at(7, place),
            NamesFault::Unknown(place) => at(8, place),
            NamesFault::OtherProcess(place) => at(9, place),
            NamesFault::WithItself(place) => at(10, place),
            NamesFault::Again(place) => at(11, place),
            NamesFault::Memory => None,
        }
    }
}

impl fmt::Display for NamesFault {
    ghost use Rattle.std.specs.Prelude.{Some};
    ghost use Rattle.tables.specs.Messages.{names_message};

    ghost output = { λ e. Some (names_message e) };

    fn fmt<W: fmt::Write>(&self, f: &mut fmt::Formatter<W>) -> fmt::Result {
        match self {
            NamesFault::Lines(fault) => write!(f, "{fault}"),
            NamesFault::Header(at) => write!(f, "byte {at}: the header has another name here"),
            NamesFault::NoName(at) => write!(f, "byte {at}: no name"),
            NamesFault::TooMany(at) => write!(f, "byte {at}: one name too many"),
            NamesFault::Unknown(at) => write!(f, "byte {at}: an unknown name"),
            NamesFault::OtherProcess(at) => write!(
                f,
                "byte {at}: another process than the event had before"
            ),
            NamesFault::WithItself(at) => write!(f, "byte {at}: a process with itself"),
            NamesFault::Again(at) => write!(f, "byte {at}: a pair that was listed before"),
            NamesFault::Memory => f.write_str("out of memory"),
        }
    }
}

impl Error for NamesFault {}

impl From<LinesFault> for NamesFault {
    ghost from_gives = { λ e r. r ≡ OfLines e };

    fn from(e: LinesFault) -> NamesFault {
        NamesFault::Lines(e)
    }
}

impl From<AllocError> for NamesFault {
    ghost from_gives = { λ _ r. r ≡ OutOfMemory };

    fn from(_e: AllocError) -> NamesFault {
        NamesFault::Memory
    }
}

impl<T: Drop> From<AllocFailed<T>> for NamesFault {
    ghost from_gives = { λ _ r. r ≡ OutOfMemory };

    fn from(_e: AllocFailed<T>) -> NamesFault {
        NamesFault::Memory
    }
}

/// Why an apart list is not read: a fault of its text, or a store that cannot hold every pair there may be.
#[derive(Clone, Copy, PartialEq, Eq, Debug)]
pub enum ApartFault {
    Names(NamesFault),
    ShortStore,
}

impl ApartFault {
    /// What a user is told; none where memory was wanting. A short store has no place in the text.
    pub fn refusal(self) -> Option<Refusal>
        ensures { result ≡ apart_refusal self }
    {
        match self {
            ApartFault::Names(fault) => fault.refusal(),
            ApartFault::ShortStore => Some(Refusal {
                number: 24,
                place: 0,
                layer: Layer::Audit,
            }),
        }
    }
}

impl fmt::Display for ApartFault {
    ghost use Rattle.std.specs.Prelude.{Some};
    ghost use Rattle.tables.specs.Messages.{apart_message};

    ghost output = { λ e. Some (apart_message e) };

    fn fmt<W: fmt::Write>(&self, f: &mut fmt::Formatter<W>) -> fmt::Result {
        match self {
            ApartFault::Names(fault) => write!(f, "{fault}"),
            ApartFault::ShortStore => f.write_str("the store is too short"),
        }
    }
}

impl Error for ApartFault {}

impl From<NamesFault> for ApartFault {
    ghost from_gives = { λ e r. r ≡ OfNames e };

    fn from(e: NamesFault) -> ApartFault {
        ApartFault::Names(e)
    }
}

impl From<LinesFault> for ApartFault {
    ghost from_gives = { λ e r. r ≡ OfNames (OfLines e) };

    fn from(e: LinesFault) -> ApartFault {
        ApartFault::Names(NamesFault::Lines(e))
    }
}

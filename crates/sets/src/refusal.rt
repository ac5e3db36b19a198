ghost use Rattle.std.specs.Prelude.{◌≡◌};
ghost use Rattle.sets.specs.declared.refusal.SetRefusal.TheVariants.{Memory as ForMemory, TooWide as ForWidth};

use ordered::Full;
use std::alloc::AllocError;
use std::error::Error;
use std::fmt;

/// Why a set was not built.
#[derive(Clone, Copy, PartialEq, Eq, Debug)]
pub enum SetRefusal {
    TooWide,
    Memory,
}

impl fmt::Display for SetRefusal {
    ghost use Rattle.std.specs.Prelude.{Some};
    ghost use Rattle.sets.specs.Refusals.{refusal_message};

    ghost output = { λ r. Some (refusal_message r) };

    fn fmt<W: fmt::Write>(&self, f: &mut fmt::Formatter<W>) -> fmt::Result {
        match self {
            SetRefusal::TooWide => f.write_str("the set is too wide"),
            SetRefusal::Memory => f.write_str("out of memory"),
        }
    }
}

impl Error for SetRefusal {}

impl From<AllocError> for SetRefusal {
    ghost from_gives = { λ _ r. r ≡ ForMemory };

    fn from(_error: AllocError) -> Self {
        Self::Memory
    }
}

impl From<Full> for SetRefusal {
    ghost from_gives = { λ _ r. r ≡ ForWidth };

    fn from(_full: Full) -> Self {
        Self::TooWide
    }
}

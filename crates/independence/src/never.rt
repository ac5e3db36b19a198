//! No independence at all.
ghost use Rattle.std.specs.Prelude.{false, refl};
ghost use Rattle.independence.specs.Laws.{never_bounded};

use crate::relation::{Independence, Relation};

/// No two events are independent.
#[derive(Clone, Copy)]
pub struct Never;

impl Relation for Never {
    ghost relation = { λ _ _ _. false };

    ghost irreflexive = { λ x a. refl };

    ghost symmetric = { λ x a b. refl };

    ghost bounded = { λ x a b. never_bounded a };
}

impl Independence for Never {
    fn independent(&self, _a: usize, _b: usize) -> bool {
        false
    }
}

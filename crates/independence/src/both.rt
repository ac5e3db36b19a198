//! Two independences at once.
ghost use Rattle.std.specs.Prelude.{◌&&◌};
ghost use Rattle.independence.specs.Laws.{both_irreflexive, both_symmetric, both_bounded};

use crate::relation::{Independence, Relation};

/// Two events are independent if both rules say so.
#[derive(Drop)]
pub struct Both<X, Y> {
    pub first: X,
    pub second: Y,
}

impl<X: Relation, Y: Relation> Relation for Both<X, Y> {
    ghost relation = { λ x a b. X.Relation.relation x.first a b && Y.Relation.relation x.second a b };

    ghost irreflexive = { λ x a. both_irreflexive (X.Relation.relation x.first a a) (Y.Relation.relation x.second a a) (X.Relation.irreflexive x.first a) };

    ghost symmetric = { λ x a b. both_symmetric (X.Relation.relation x.first a b) (Y.Relation.relation x.second a b) (X.Relation.relation x.first b a) (Y.Relation.relation x.second b a) (X.Relation.symmetric x.first a b) (Y.Relation.symmetric x.second a b) };

    ghost bounded = { λ x a b. both_bounded (X.Relation.relation x.first a b) (Y.Relation.relation x.second a b) a (X.Relation.bounded x.first a b) };
}

impl<X: Independence, Y: Independence> Independence for Both<X, Y> {
    fn independent(&self, a: usize, b: usize) -> bool {
        self.first.independent(a, b) && self.second.independent(a, b)
    }
}

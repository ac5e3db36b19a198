ghost use Rattle.brute.specs.Pairs.{paired, paired_irreflexive, paired_symmetric, paired_bounded};

use independence::relation::{Independence, Relation};

/// Which of the events 0, 1 and 2 are independent: 0 and 1, 0 and 2, 1 and 2.
#[derive(Clone, Copy)]
pub struct Pairs {
    pub low: bool,
    pub outer: bool,
    pub high: bool,
}

impl Relation for Pairs {
    ghost relation = { λ p. paired p.low p.outer p.high };

    ghost irreflexive = { λ p. paired_irreflexive p.low p.outer p.high };

    ghost symmetric = { λ p. paired_symmetric p.low p.outer p.high };

    ghost bounded = { λ p. paired_bounded p.low p.outer p.high };
}

impl Independence for Pairs {
    fn independent(&self, a: usize, b: usize) -> bool {
        match (a, b) {
            (0, 1) | (1, 0) => self.low,
            (0, 2) | (2, 0) => self.outer,
            (1, 2) | (2, 1) => self.high,
            _ => false,
        }
    }
}

//! Numbers by size, and pairs of numbers by the first and then the second.
ghost use Rattle.std.specs.Prelude.{ℕ};
ghost use Rattle.ordered.specs.Numbers.{number_order, numbers_same, numbers_total, pair_order, pairs_same, pairs_total};

use crate::order::TotalOrder;
use std::cmp::Ordering;

impl TotalOrder for usize {
    ghost Content = { ℕ };

    ghost content = { λ n. n };

    ghost order = { number_order };

    ghost same = { numbers_same };

    ghost converse = { λ a b. numbers_total.antisymm b a };

    ghost transitive = { numbers_total.trans };

    fn compare(&self, other: &usize) -> Ordering {
        self.cmp(other)
    }
}

impl TotalOrder for (usize, usize) {
    ghost Content = { ℕ × ℕ };

    ghost content = { λ p. p };

    ghost order = { pair_order };

    ghost same = { pairs_same };

    ghost converse = { λ p q. pairs_total.antisymm q p };

    ghost transitive = { pairs_total.trans };

    fn compare(&self, other: &(usize, usize)) -> Ordering {
        self.0.compare(&other.0).then(self.1.compare(&other.1))
    }
}

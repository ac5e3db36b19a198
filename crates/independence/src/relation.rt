//! What a rule of independence has to keep.
ghost use Rattle.std.specs.Prelude.{◌≡◌, ℕ, ◌<◌, Bool, true, false};

/// What is independent of what. Events are numbers below 64, and from there on nothing is independent.
pub trait Relation {
    ghost relation: { Self → ℕ → ℕ → Bool };

    ghost irreflexive: { (x : Self) (a : ℕ) → relation x a a ≡ false };

    ghost symmetric: { (x : Self) (a b : ℕ) → relation x a b ≡ relation x b a };

    ghost bounded: { (x : Self) (a b : ℕ) → relation x a b ≡ true → a < 64 };
}

/// A rule that answers whether two events are independent.
pub trait Independence: Relation {
    fn independent(&self, a: usize, b: usize) -> bool
        ensures { result ≡ Self.Relation.relation self.now a b };
}

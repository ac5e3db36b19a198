ghost use Rattle.std.specs.Prelude.{◌≡◌};
ghost use Rattle.std.specs.declared.cmp.Ordering.TheVariants.{Less, Equal};
ghost use Rattle.std.specs.declared.cmp.Ordering.{Ordering};
ghost use Rattle.std.specs.Ordering.{ordering_reverse};

use std::cmp::Ordering;

/// A total order of values by their content, which is what they mean. Of two contents the first is
/// before, the same as or after the second, and only equal contents are the same. Values of equal
/// content may still differ, as boxes at two addresses do.
pub trait TotalOrder {
    ghost Content: { Type 0 };

    ghost content: { Self → Content };

    ghost order: { Content → Content → Ordering };

    /// Whether the content comes before, is the same as or comes after that of the other.
    fn compare(&self, other: &Self) -> Ordering
        ensures { result ≡ order (content self.now) (content other.now) };

    ghost same: { (a b : Content) → order a b ≡ Equal → a ≡ b };

    ghost converse: { (a b : Content) → order b a ≡ ordering_reverse (order a b) };

    ghost transitive: { (a b c : Content) → order a b ≡ Less → order b c ≡ Less → order a c ≡ Less };
}

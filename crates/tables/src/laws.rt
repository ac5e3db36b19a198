//! What the order of pairs is.
ghost use Rattle.std.specs.Prelude.{◌≡◌, Decides};
ghost use Rattle.std.specs.declared.cmp.Ordering.TheVariants.{Equal};
ghost use Rattle.tables.specs.Pairing.{Pair, pair_cmp};

/// Does nothing: its contract says that pairs of numbers rise by the first and then the second number, and that those are equal which are the same.
pub fn comparing_pairs()
    ensures order { (x y : Pair) → ⟦<(usize, usize) as Ord>⟧.cmp x y ≡ pair_cmp x y }
    ensures same { (x y : Pair) → pair_cmp x y ≡ Equal → x ≡ y }
    ensures equality { (x y : Pair) → Decides (⟦<(usize, usize) as PartialEq>⟧.eq x y) (x ≡ y) }
{}

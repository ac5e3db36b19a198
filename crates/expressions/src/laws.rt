ghost use Rattle.std.specs.Prelude.{◌≡◌};
ghost use Rattle.std.specs.declared.cmp.Ordering.TheVariants.{Equal};
ghost use Rattle.traces.specs.Normal.{equal};
ghost use Rattle.traces.specs.Order.{order};
ghost use Rattle.expressions.specs.Model.{model, symbols_of};

use crate::expr::Expr;

/// Does nothing: its contract is the law of the derived equality and order, which are those of the theory.
#[tactic(auto, using(crate::proofs::Derived::eq_is_equal, crate::proofs::Derived::cmp_is_order, crate::proofs::Derived::ties_are_one))]
pub fn comparing_expressions()
    ensures equality { (e f : Expr) → ⟦<Expr as PartialEq>⟧.eq e f ≡ equal (model e) (model f) }
    ensures order { (e f : Expr) → ⟦<Expr as Ord>⟧.cmp e f ≡ order (model e) (model f) }
    ensures same_symbols { (e f : Expr) → ⟦<Expr as Ord>⟧.cmp e f ≡ Equal → symbols_of e ≡ symbols_of f }
    ensures same { (e f : Expr) → ⟦<Expr as Ord>⟧.cmp e f ≡ Equal → model e ≡ model f }
{}

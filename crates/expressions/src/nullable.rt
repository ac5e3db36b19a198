ghost use Rattle.std.specs.Prelude.{◌≡◌};
ghost use Rattle.traces.specs.Derivatives.{nullable};
ghost use Rattle.expressions.specs.Model.{model};

use crate::expr::Expr;

impl Expr {
    /// Whether the empty word is a word of the expression.
    pub fn is_nullable(&self) -> bool
        ensures { result ≡ nullable (model self.now) }
    {
        match self {
            Expr::Event(_) | Expr::Zero => false,
            Expr::One | Expr::Star(_) => true,
            Expr::Sum(a, b) => a.is_nullable() || b.is_nullable(),
            Expr::Cat(a, b) => a.is_nullable() && b.is_nullable(),
        }
    }
}

ghost use Rattle.std.specs.Prelude.{◌≡◌, true, false, ◌≤◌};
ghost use Rattle.traces.specs.Normal.{equal, normal, is_zero};
ghost use Rattle.traces.specs.Order.{size};
ghost use Rattle.expressions.specs.Model.{model};

use expressions::Expr;

/// A normalised expression other than Zero, of at most 120 symbols.
#[derive(Drop)]
pub struct Protocol {
    expression: Expr,
    ghost normalised: { equal (normal (model expression)) (model expression) ≡ true },
    ghost possible: { is_zero (model expression) ≡ false },
    ghost small: { size (model expression) ≤ 120 },
}

impl Protocol {
    /// The expression whose words are the protocol's.
    pub fn expression(&self) -> &Expr
        ensures { result.now ≡ self.now.expression }
    {
        &self.expression
    }
}

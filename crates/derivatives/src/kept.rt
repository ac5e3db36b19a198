ghost use Rattle.std.specs.Prelude.{◌≡◌, IfOk};
ghost use Rattle.expressions.specs.Model.{model};
ghost use Rattle.derivatives.specs.Steps.{kept};

use crate::step::Step;
use expressions::{Expr, cat, star, sum};
use independence::relation::Independence;
use std::alloc::AllocError;

impl<I: Independence> Step<'_, I> {
    /// What the expression keeps beside the event: Zero stands for all that is not independent of it.
    pub fn keep(&self, e: &Expr) -> Result<Expr, AllocError>
        ensures { IfOk result (λ k. model k ≡ kept I.Relation.relation self.now (model e.now)) }
    {
        match e {
            Expr::Event(b) if self.rule.independent(self.event, (*b).into()) => Ok(Expr::Event(*b)),
            Expr::Event(_) | Expr::Zero => Ok(Expr::Zero),
            Expr::One => Ok(Expr::One),
            Expr::Sum(a, b) => sum(self.heap, self.keep(a)?, self.keep(b)?),
            // what is behind a Zero need not be looked at
            Expr::Cat(a, b) => match self.keep(a)? {
                Expr::Zero => Ok(Expr::Zero),
                left => cat(self.heap, left, self.keep(b)?),
            },
            Expr::Star(a) => star(self.heap, self.keep(a)?),
        }
    }
}

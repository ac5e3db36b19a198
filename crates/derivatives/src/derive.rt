ghost use Rattle.std.specs.Prelude.{◌≡◌, ◌++◌, IfOk, OnOk};
ghost use Rattle.traces.specs.Normal.{cat_of, star_of};
ghost use Rattle.expressions.specs.Model.{model, models};
ghost use Rattle.derivatives.specs.Rounds.{between, behind};
ghost use Rattle.derivatives.specs.Steps.{kept, derived, next_of};

use crate::step::Step;
use expressions::{Expr, cat, star};
use independence::relation::Independence;
use std::alloc::AllocError;

impl<I: Independence> Step<'_, I> {
    /// The derivatives of the expression by the event. None of them is Zero.
    #[cycle(deriving)]
    pub fn derivatives(&self, e: &Expr) -> Result<Vec<Expr>, AllocError>
        ensures { IfOk result (λ v. models v.items ≡ derived I.Relation.relation self.now (model e.now)) }
    {
        let mut out = Vec::new(self.heap);
        self.push_derivatives(e, &mut out)?;
        Ok(out)
    }

    /// The derivatives of all of the expressions, in turn.
    #[tactic(auto, using(crate::proofs::Pushing::next_more))]
    pub fn all_derivatives(&self, es: &[Expr]) -> Result<Vec<Expr>, AllocError>
        ensures { IfOk result (λ v. models v.items ≡ next_of I.Relation.relation self.now (models es.now)) }
    {
        let mut out = Vec::new(self.heap);
        for e in es {
            self.push_derivatives(e, &mut out)?;
        }
        Ok(out)
    }

    // The list grows by the derivatives of e, so that each is moved into place once.
    #[cycle(deriving)]
    fn push_derivatives(&self, e: &Expr, out: &mut Vec<Expr>) -> Result<(), AllocError>
        ensures { OnOk result (models out.new.items ≡ models out.old.items ++ derived I.Relation.relation self.now (model e.now)) }
    {
        match e {
            Expr::Event(b) if usize::from(*b) == self.event => Ok(out.push(Expr::One)?),
            Expr::Event(_) | Expr::One | Expr::Zero => Ok(()),
            Expr::Sum(a, b) => {
                self.push_derivatives(a, out)?;
                self.push_derivatives(b, out)
            }
            Expr::Cat(a, b) => {
                self.push_between(out, &Expr::One, self.derivatives(a)?, b)?;
                match self.keep(a)? {
                    Expr::Zero => Ok(()),
                    kept => self.push_between(out, &kept, self.derivatives(b)?, &Expr::One),
                }
            }
            Expr::Star(a) => {
                // made first, so that no kept rounds wait in memory meanwhile
                let rounds = self.derivatives(a)?;
                let kept = self.kept_rounds(a)?;
                self.push_between(out, &kept, rounds, star_behind(e, a))
            }
        }
    }

    // The rounds of a Star of the expression that may be due before the event and are still to come.
    fn kept_rounds(&self, part: &Expr) -> Result<Expr, AllocError>
        ensures { IfOk result (λ k. model k ≡ star_of (kept I.Relation.relation self.now (model part.now))) }
    {
        star(self.heap, self.keep(part)?)
    }

    // The list grows by head, then d, then tail, for each d, but those that are Zero.
    fn push_between(
        &self,
        out: &mut Vec<Expr>,
        head: &Expr,
        ds: Vec<Expr>,
        tail: &Expr,
    ) -> Result<(), AllocError>
        ensures { OnOk result (models out.new.items ≡ models out.old.items ++ between (model head.now) (model tail.now) (models ds.items)) }
    {
        for d in ds {
            match self.join(head, d, tail)? {
                Expr::Zero => {}
                whole => out.push(whole)?,
            }
        }
        Ok(())
    }

    fn join(&self, head: &Expr, d: Expr, tail: &Expr) -> Result<Expr, AllocError>
        ensures { IfOk result (λ e. model e ≡ cat_of (model head.now) (cat_of (model d) (model tail.now))) }
    {
        let end = cat(self.heap, d, tail.clone()?)?;
        cat(self.heap, head.clone()?, end)
    }
}

// What stands behind a round of a Star: the Star itself, or its part if that is a Star already.
fn star_behind<'a>(whole: &'a Expr, part: &'a Expr) -> &'a Expr
    ensures { model result.now ≡ behind (model whole.now) (model part.now) }
{
    match part {
        Expr::Star(_) => part,
        _ => whole,
    }
}

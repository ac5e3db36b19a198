//! Lists of expressions without duplicates, in order of first appearance.
ghost use Rattle.std.specs.Prelude.{◌≡◌, OnOk};
ghost use Rattle.expressions.specs.Model.{model, models};
ghost use Rattle.sets.specs.Distinct.{append, append_each};

use expressions::Expr;
use std::alloc::AllocError;

fn append(members: &mut Vec<Expr>, e: Expr) -> Result<(), AllocError>
    ensures { OnOk result (models members.new.items ≡ append (model e) (models members.old.items)) }
{
    if !members.contains(&e) {
        members.push(e)?;
    }
    Ok(())
}

/// Each of the expressions is put behind the members, unless it is among them.
#[tactic(auto, using(crate::proofs::Appending::append_step))]
pub(crate) fn append_each(members: &mut Vec<Expr>, es: Vec<Expr>) -> Result<(), AllocError>
    ensures { OnOk result (models members.new.items ≡ append_each (models es.items) (models members.old.items)) }
{
    for e in es {
        append(members, e)?;
    }
    Ok(())
}

ghost use Rattle.std.specs.Prelude.{◌≡◌, true, Decides};
ghost use Rattle.traces.specs.Members.{Any};
ghost use Rattle.traces.specs.Derivatives.{nullable};
ghost use Rattle.expressions.specs.Model.{models};

use expressions::Expr;

/// Whether one of the expressions is nullable.
pub fn any_nullable(members: &[Expr]) -> bool
    ensures { Decides result (Any (λ E. nullable E ≡ true) (models members.now)) }
{
    members.iter().any(|member| member.is_nullable())
}

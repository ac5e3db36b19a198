//! The normalising constructors, which leave out Zero and One where they can.
ghost use Rattle.std.specs.Prelude.{◌≡◌, ◌≤◌, IfOk, MatchOption};
ghost use Rattle.traces.specs.Expressions.{event as of_event};
ghost use Rattle.traces.specs.Normal.{cat_of, sum_of, star_of, is_summand};
ghost use Rattle.expressions.specs.Model.{model};

use crate::events::Event;
use crate::expr::Expr;
use std::alloc::{AllocError, Global};

/// The event of that number, none from 64 on.
pub fn event(number: usize) -> Option<Expr>
    ensures { MatchOption result (64 ≤ number) (λ e. model e ≡ of_event number) }
{
    Event::try_from(number).ok().map(Expr::Event)
}

/// The first and then the second, grouped to the right: Zero if one is Zero, the other if one is One.
pub fn cat(heap: Global, e: Expr, f: Expr) -> Result<Expr, AllocError>
    ensures { IfOk result (λ g. model g ≡ cat_of (model e) (model f)) }
{
    match (e, f) {
        (Expr::Zero, _) | (_, Expr::Zero) => Ok(Expr::Zero),
        (Expr::One, f) => Ok(f),
        (e, Expr::One) => Ok(e),
        (Expr::Cat(a, b), f) => {
            let rest = cat(heap, Box::into_inner(b), f)?;
            cat(heap, Box::into_inner(a), rest)
        }
        (e, f) => Ok(Expr::Cat(Box::new(heap, e)?, Box::new(heap, f)?)),
    }
}

/// Either of the two. The other if one is Zero, else grouped to the right, without a summand of the first that comes
/// again behind it.
pub fn sum(heap: Global, e: Expr, f: Expr) -> Result<Expr, AllocError>
    ensures { IfOk result (λ g. model g ≡ sum_of (model e) (model f)) }
{
    match (e, f) {
        (Expr::Zero, f) => Ok(f),
        (e, Expr::Zero) => Ok(e),
        (Expr::Sum(a, b), f) => {
            let rest = sum(heap, Box::into_inner(b), f)?;
            sum(heap, Box::into_inner(a), rest)
        }
        (e, f) => {
            if is_summand(&e, &f) {
                Ok(f)
            } else {
                Ok(Expr::Sum(Box::new(heap, e)?, Box::new(heap, f)?))
            }
        }
    }
}

// Whether e is among the summands of f.
fn is_summand(e: &Expr, f: &Expr) -> bool
    ensures { result ≡ is_summand (model e.now) (model f.now) }
{
    match f {
        Expr::Sum(a, b) => e.equals(a) || is_summand(e, b),
        _ => e.equals(f),
    }
}

/// The expression any number of times over: One for Zero and One, and a Star as it stands.
pub fn star(heap: Global, e: Expr) -> Result<Expr, AllocError>
    ensures { IfOk result (λ g. model g ≡ star_of (model e)) }
{
    match e {
        Expr::Zero | Expr::One => Ok(Expr::One),
        Expr::Star(a) => Ok(Expr::Star(a)),
        e => Ok(Expr::Star(Box::new(heap, e)?)),
    }
}

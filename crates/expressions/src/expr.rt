ghost use Rattle.std.specs.Prelude.{◌≡◌, IfOk};
ghost use Rattle.expressions.specs.Model.{model};

use crate::events::Event;
use std::alloc::AllocError;

/// A regular expression over events. The variants stand in the order of their symbols, so that the derived order is
/// that of the prefix forms.
#[derive(Drop, PartialEq, Eq, PartialOrd, Ord, Debug)]
pub enum Expr {
    Event(Event),
    One,
    Sum(Box<Expr>, Box<Expr>),
    Cat(Box<Expr>, Box<Expr>),
    Star(Box<Expr>),
    Zero,
}

impl Clone for Expr {
    ghost is_clone = { λ x y. model y ≡ model x };

    #[cycle(clone)]
    fn clone(&self) -> Result<Expr, AllocError> {
        match self {
            Expr::Event(e) => Ok(Expr::Event(*e)),
            Expr::One => Ok(Expr::One),
            Expr::Sum(a, b) => Ok(Expr::Sum(boxed(a)?, boxed(b)?)),
            Expr::Cat(a, b) => Ok(Expr::Cat(boxed(a)?, boxed(b)?)),
            Expr::Star(a) => Ok(Expr::Star(boxed(a)?)),
            Expr::Zero => Ok(Expr::Zero),
        }
    }
}

// What a box clones to. The clone of `Box` itself has no proof where it leads back to a clone that is written out.
#[cycle(clone)]
fn boxed(e: &Box<Expr>) -> Result<Box<Expr>, AllocError>
    ensures { IfOk result (λ b. model b.value ≡ model e.now.value) }
{
    Ok(Box::new(*Box::allocator(e), e.as_ref().clone()?)?)
}

//! Expressions over events as boxed trees, built by normalising constructors and compared by their symbols.
//!
//! Every contract speaks of the `model` of an expression, which is the expression of the theory.
#![tactic(auto)]

mod construct;
mod events;
mod expr;
mod laws;
mod nullable;
mod order;
mod size;

pub use construct::{cat, event, star, sum};
pub use events::{Event, NoEvent};
pub use expr::Expr;
pub use laws::comparing_expressions;
pub use order::compare;

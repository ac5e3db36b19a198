//! Sets of expressions: the next set by an event, whether a member is nullable, and the plain matching of words.
#![tactic(auto)]

mod distinct;
mod matching;
mod nullable;
mod refusal;
mod set;

pub use matching::matches;
pub use nullable::any_nullable;
pub use refusal::SetRefusal;
pub use set::next::next_set;
pub use set::{ExprSet, MOST_MEMBERS, MOST_SYMBOLS};

ghost use Rattle.std.specs.Prelude.{◌≡◌, false};
ghost use Rattle.std.specs.List.Sorted.{IsStrictlySortedBy, IsStrictlySortedBy-prop};
ghost use Rattle.traces.specs.Order.{order};
ghost use Rattle.expressions.specs.Model.{models};
ghost use Rattle.sets.specs.Sets.{wide};

use expressions::Expr;

pub mod next;

/// A set of expressions is too wide with more members than these.
pub const MOST_MEMBERS: usize = 32;

/// A set is too wide with a member of more symbols than these.
pub const MOST_SYMBOLS: usize = 120;

/// Expressions in strictly rising order, which are not too wide a set.
#[derive(Drop)]
pub struct ExprSet {
    members: Vec<Expr>,
    ghost narrow: { wide (models members.items) ≡ false },
    ghost rising: { IsStrictlySortedBy order (models members.items) } by { IsStrictlySortedBy-prop order (models members.items) },
}

impl ExprSet {
    /// The members in rising order.
    pub fn members(&self) -> &[Expr]
        ensures { result.now ≡ self.now.members.items }
    {
        self.members.as_slice()
    }
}

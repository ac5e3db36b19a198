ghost use Rattle.std.specs.Prelude.{List};
ghost use Rattle.ordered.specs.Insertion.{InTurn};

use crate::order::TotalOrder;

/// Does nothing: its contract is the law of every list that addings make from an empty one.
pub fn adding_in_turn<E: TotalOrder>()
    ensures { (xs : List E) → InTurn E.TotalOrder.content E.TotalOrder.order xs }
{}

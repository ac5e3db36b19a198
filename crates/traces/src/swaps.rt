//! Orders of the places of a word, and swaps of neighbouring places.
ghost use Rattle.traces.specs.Swaps.{SwapsReachOrder, SwapsAreExchanges, ClosureByOrders};

/// Bringing the due places to the front swaps independent neighbours only, and ends in the order.
pub fn swaps_reach_order_holds()
    ensures { SwapsReachOrder }
{}

/// Swaps of places are exchanges of their events.
pub fn swaps_are_exchanges_holds()
    ensures { SwapsAreExchanges }
{}

/// A word is in the closure exactly if some order of its places, turning only independent ones, gives a word of the expression.
pub fn closure_by_orders_holds()
    ensures { ClosureByOrders }
{}

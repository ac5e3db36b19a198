//! The size of expressions, and their order.
ghost use Rattle.traces.specs.Theorems.{SizeCountsSymbols, OrderTotal, OrderEqual, OrderByParts};

/// The size is the number of symbols of the prefix form.
pub fn size_counts_symbols_holds()
    ensures { SizeCountsSymbols }
{}

/// The order of expressions is total and transitive.
pub fn order_total_holds()
    ensures { OrderTotal }
{}

/// The order is Equal only for equal expressions, if their events are below 64.
pub fn order_equal_holds()
    ensures { OrderEqual }
{}

/// The order can be found part by part.
pub fn order_by_parts_holds()
    ensures { OrderByParts }
{}

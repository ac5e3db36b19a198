//! Exchanges of neighbouring independent events, and the trace closures that they make.
ghost use Rattle.traces.specs.Theorems.{ExchangesReverse, ClosureNever};

/// Where independence is symmetric, exchanges can be turned round.
pub fn exchanges_reverse_holds()
    ensures { ExchangesReverse }
{}

/// Where no events are independent, the closure of an expression is its words.
pub fn closure_never_holds()
    ensures { ClosureNever }
{}

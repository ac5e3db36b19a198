//! The alphabet: which events the words of an expression, and what is built of it, can have.
ghost use Rattle.traces.specs.Theorems.{WordsBelow, ClosureBelow, EventsStayBelow};

/// The words of an expression have no other events than the expression.
pub fn words_below_holds()
    ensures { WordsBelow }
{}

/// The words of its closure have none either.
pub fn closure_below_holds()
    ensures { ClosureBelow }
{}

/// The constructors, what is kept and the derivatives bring in no event.
pub fn events_stay_below_holds()
    ensures { EventsStayBelow }
{}

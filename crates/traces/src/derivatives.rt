//! What is kept beside an event, and the derivatives by it.
ghost use Rattle.traces.specs.Theorems.{KeepWords, DerivativesNormal, DerivativesClosure};

/// What is kept beside an event means the words that are independent of it.
pub fn keep_words_holds()
    ensures { KeepWords }
{}

/// No derivative is Zero, and those of a normalised expression are normalised.
pub fn derivatives_normal_holds()
    ensures { DerivativesNormal }
{}

/// A word is in the closure exactly if its rest is in the closure of a derivative by its first event.
pub fn derivatives_closure_holds()
    ensures { DerivativesClosure }
{}

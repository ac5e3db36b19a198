//! The decision by sets of expressions, moved by one event after another.
ghost use Rattle.traces.specs.Theorems.{NullableDecides, NullableClosure, NonemptyPrefix, EmptyStaysEmpty, AfterAppend, MembersCount};

/// An expression is nullable exactly if the empty word is a word of it.
pub fn nullable_decides_holds()
    ensures { NullableDecides }
{}

/// A word is in the closure exactly if the set after it has a nullable member.
pub fn nullable_closure_holds()
    ensures { NullableClosure }
{}

/// The set after a word is not empty exactly if the word begins a word of the closure.
pub fn nonempty_prefix_holds()
    ensures { NonemptyPrefix }
{}

/// An empty set stays empty.
pub fn empty_stays_empty_holds()
    ensures { EmptyStaysEmpty }
{}

/// The set after a longer word follows from the set after its beginning.
pub fn after_append_holds()
    ensures { AfterAppend }
{}

/// Only the members of a set count.
pub fn members_count_holds()
    ensures { MembersCount }
{}

//! Worked cases.
ghost use Rattle.traces.specs.Examples.{ExampleTable};

/// The definitions, computed on small expressions.
pub fn example_table_holds()
    ensures { ExampleTable }
{}

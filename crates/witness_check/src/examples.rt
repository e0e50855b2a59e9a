//! Lines and witnesses that are accepted or refused, as theorems.

ghost use Rattle.witness_check.specs.Examples.{EightOperations, LinesOfOperations, SixOperations};

/// Lines that are operations, and lines that aren't.
pub fn lines_of_operations()
    ensures { LinesOfOperations }
{}

/// One hart stores 7, loads it back and exits.
pub fn six_operations()
    ensures { SixOperations }
{}

/// A load of the old word comes before the store, whatever the turns were.
pub fn eight_operations()
    ensures { EightOperations }
{}

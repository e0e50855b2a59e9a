//! Worked examples of a machine without its time, as theorems: each clause is one, and there is nothing to run.

ghost use Rattle.time_laws.specs.Examples.{ACircle};

/// Six turns after which a machine is where it was, but for its time.
pub fn a_circle()
    ensures { ACircle }
{}

//! A worked example of a search, as theorems: each clause is one, and there is nothing to run.

ghost use Rattle.search_model.specs.Examples.{TwoExits};

/// The table of two harts that exit, and the schedule of its line.
pub fn two_exits()
    ensures { TwoExits }
{}

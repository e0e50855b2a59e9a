//! Worked examples of tables, as theorems: each clause is one, and there is nothing to run.

ghost use Rattle.join_model.specs.Examples.{SmallJoins, SmallRefusals};

/// Tables that are put together.
pub fn small_joins()
    ensures { SmallJoins }
{}

/// Files that aren't tables, each with its first refusal.
pub fn small_refusals()
    ensures { SmallRefusals }
{}

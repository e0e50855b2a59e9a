//! Worked examples of outcomes, as theorems: each clause is one, and there is nothing to run.

ghost use Rattle.outcome_model.specs.Examples.{SmallOutcomes};

/// What a hart comes to that puts a byte, and all outcomes of two harts that exit in two turns each.
pub fn small_outcomes()
    ensures { SmallOutcomes }
{}

//! Worked examples of measured runs, as theorems: each clause is one, and there is nothing to run.

ghost use Rattle.measure_model.specs.Examples.{SmallMeasures};

/// What is printed of the seeds of small trees.
pub fn small_measures()
    ensures { SmallMeasures }
{}

//! Worked examples of recorded runs, as theorems: each clause is one, and there is nothing to run.

ghost use Rattle.recording_model.specs.Examples.{SmallRecordings};

/// What is recorded of the seeds of small trees.
pub fn small_recordings()
    ensures { SmallRecordings }
{}

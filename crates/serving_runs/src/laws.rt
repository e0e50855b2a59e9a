//! What holds of served runs, as theorems: there is nothing to run.

ghost use Rattle.serving_runs.specs.Served.{ServedRunsComplete};

/// The run on the schedule of legal operations completes just these, in their order.
pub fn served_runs_complete()
    ensures { ServedRunsComplete }
{}

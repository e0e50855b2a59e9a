//! What holds of several commands together, as theorems: each clause is one, and there is nothing to run.

ghost use Rattle.ddm_cli.specs.Together.{CheckpointsGrowByOperations, ReportsPassTheCheck, SavedRunsAreWhole, SeedsPrintTheSame};

/// What is printed of a run from a seed is what is printed of the schedule of its turns.
pub fn seeded_runs()
    ensures { SeedsPrintTheSame }
{}

/// A report ends with a witness of which `check` prints how many lines it has.
pub fn checked_reports()
    ensures { ReportsPassTheCheck }
{}

/// A run that is saved and goes on prints what `run` prints of all its turns: report, counts and all.
pub fn saved_runs()
    ensures { SavedRunsAreWhole }
{}

/// A checkpoint has 60 bytes for each operation. How long the rest of it is at most, `checkpoint_sizes` of `file_laws` says.
pub fn checkpoint_sizes()
    ensures { CheckpointsGrowByOperations }
{}

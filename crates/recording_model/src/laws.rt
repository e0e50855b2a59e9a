//! What holds of every recorded run, as theorems: each clause is one, and there is nothing to run.

ghost use Rattle.recording_model.specs.Laws.{DoesNothing, EndsRightly, FirstTurnsSuffice, LeftOutChangesNothing, ScheduleRunsAgain};

/// A turn that does nothing changes nothing, so the machine after the recorded turns is the machine after all turns that were made.
pub fn left_out_turns_change_nothing()
    ensures turn { DoesNothing }
    ensures runs { LeftOutChangesNothing }
{}

/// So the schedule of the recorded turns gives that machine again.
pub fn recorded_schedules_run_again()
    ensures { ScheduleRunsAgain }
{}

/// Where fewer turns than asked were recorded, every hart has halted, or the last 16,777,216 drawn turns do nothing, or all were drawn.
pub fn recorded_runs_end_rightly()
    ensures { EndsRightly }
{}

/// How many turns more a seed has doesn't matter to a run that ended before them.
pub fn first_turns_suffice()
    ensures { FirstTurnsSuffice }
{}

//! What holds of every outcome, as theorems: each clause is one, and there is nothing to run.

ghost use Rattle.outcome_model.specs.AlikeOutcomes.{AlikeHaltAlike, AlikeHaveOneOutcome};
ghost use Rattle.outcome_model.specs.FlatOutcome.{OutcomesAreLegal};
ghost use Rattle.outcome_model.specs.Halted.{HaltedStays, LaterTurnsChangeNoOutcome};
ghost use Rattle.outcome_model.specs.TableLaws.{TablesAreRight};

/// Where every hart has halted, no later turn changes the outcome: a run may end there.
pub fn halted_harts_keep_their_outcome()
    ensures turn { HaltedStays }
    ensures runs { LaterTurnsChangeNoOutcome }
{}

/// Machines that differ in time alone, and whose harts have put out the same, have one outcome, and all harts of both have halted or
/// of neither.
pub fn alike_machines_have_one_outcome()
    ensures outcome { AlikeHaveOneOutcome }
    ensures halted { AlikeHaltAlike }
{}

/// A table has exactly the outcomes that its seeds gave, each in one line with how many seeds gave it and the smallest of them, the
/// most frequent first.
pub fn tables_are_right()
    ensures { TablesAreRight }
{}

/// Each outcome of a table is one of a legal run of the flat machine from the start.
pub fn outcomes_are_legal()
    ensures { OutcomesAreLegal }
{}

//! Broken runs: what `IsWitnessed` and `EachTurnWitnessed` (`tree_rules/specs/Witness.antt`) and `EachOutputWitnessed`
//! (`text_model/specs/Run.antt`) say is refuted of values that are wrong in one thing each. These relations are what is
//! promised of every run. If a part of them were left out, all that is proved of runs would still be proved, but not this.
//!
//! The part, and what is no longer so without it, as every other part holds there:
//!
//! - `IsWitnessed`: `keys`: `one_key_twice`. `legal`: `from_the_end`. `own_order`: `completed_otherwise`.
//! - its `harts`, by `IsHartOf`: `hart`: `other_register`, `other_place`, `flat_has_halted`. `done`: `one_more_done`. `halt`:
//!   `other_halt`, `halted_at_a_load`.
//! - its `copies`, by `HasCurrentCopy`: `is`: `no_copy`, `no_copy_of_the_second`. `words`: `stale_copy`.
//! - `IsRunWitnessed`: `machine`: `loads_another_word`. `running`: `goes_on_after_halt`. `causes`: `busy_without_cause`.
//! - `EachTurnWitnessed`, of each turn: `loads_another_word` for the last one, `wrong_at_first` for those before.
//! - `EachOutputWitnessed`: `output_exchanged`.
//!
//! The part `ops` of `IsRunWitnessed` holds of all turns from every machine, by what a run is, so nothing refutes it there. What
//! it says of answers, and what `running` and `causes` do, is refuted of other answers: `other_operations`, `halts_hart_0`,
//! `other_causes`. The other clauses tell how operations can be wrong: `legal` refuses them, and `one_left_out` the harts.
#![tactic(auto)]

ghost use Rattle.tree_rules.specs.Witness.{IsWitnessed};
ghost use Rattle.broken_runs.specs.Run.{RunInOrder, ended, flat_start, start};
ghost use Rattle.broken_runs.specs.BrokenWitnesses.{completed_otherwise, exchanged_between_harts, exchanged_in_hart};
ghost use Rattle.broken_runs.specs.BrokenWitnesses.{flat_end, halted_at_a_load, halted_flat_start, no_copy};
ghost use Rattle.broken_runs.specs.BrokenWitnesses.{no_copy_of_the_second, one_key_twice, one_left_out};
ghost use Rattle.broken_runs.specs.BrokenWitnesses.{one_more_done, other_byte, other_halt, other_pc, other_place};
ghost use Rattle.broken_runs.specs.BrokenWitnesses.{other_register, other_word_loaded, other_word_stored, stale_copy};
ghost use Rattle.broken_runs.specs.BrokenRuns.{BusyWithoutCause, GoesOnAfterHalt, LoadsAnotherWord, WrongAtFirst};
ghost use Rattle.broken_runs.specs.BrokenAnswers.{HaltsHart0, OtherCauses, OtherOperations};
ghost use Rattle.broken_runs.specs.BrokenOutput.{OutputExchanged};

/// The run that the values are taken from: what it answers, where it ends, and that it is witnessed.
pub fn run_in_order()
    ensures { RunInOrder }
{}

/// Two operations with one key.
pub fn equal_keys()
    ensures one_key_twice { ¬ IsWitnessed flat_start one_key_twice }
{}

/// Operations that, in the order of their keys, are no run of the flat machine.
pub fn illegal_witnesses()
    ensures from_the_end { ¬ IsWitnessed flat_end ended }
    ensures exchanged_in_hart { ¬ IsWitnessed flat_start exchanged_in_hart }
    ensures exchanged_between_harts { ¬ IsWitnessed flat_start exchanged_between_harts }
    ensures other_pc { ¬ IsWitnessed flat_start other_pc }
    ensures other_word_loaded { ¬ IsWitnessed flat_start other_word_loaded }
    ensures other_word_stored { ¬ IsWitnessed flat_start other_word_stored }
    ensures other_byte { ¬ IsWitnessed flat_start other_byte }
{}

/// Two operations of one hart, which it completed in the other order.
pub fn exchanged_completions()
    ensures completed_otherwise { ¬ IsWitnessed flat_start completed_otherwise }
{}

/// Harts that aren't the flat machine's, have completed more than is there, or have halted where the flat machine's don't.
pub fn other_harts()
    ensures other_register { ¬ IsWitnessed flat_start other_register }
    ensures other_place { ¬ IsWitnessed flat_start other_place }
    ensures flat_has_halted { ¬ IsWitnessed halted_flat_start start }
    ensures one_more_done { ¬ IsWitnessed flat_start one_more_done }
    ensures one_left_out { ¬ IsWitnessed flat_start one_left_out }
    ensures other_halt { ¬ IsWitnessed flat_start other_halt }
    ensures halted_at_a_load { ¬ IsWitnessed flat_start halted_at_a_load }
{}

/// Found copies that haven't the words of the flat memory, or aren't there.
pub fn stale_copies()
    ensures stale_copy { ¬ IsWitnessed flat_start stale_copy }
    ensures no_copy { ¬ IsWitnessed flat_start no_copy }
    ensures no_copy_of_the_second { ¬ IsWitnessed flat_start no_copy_of_the_second }
{}

/// Runs of one turn from machines that no run comes to.
pub fn broken_turns()
    ensures loads_another_word { LoadsAnotherWord }
    ensures wrong_at_first { WrongAtFirst }
    ensures goes_on_after_halt { GoesOnAfterHalt }
    ensures busy_without_cause { BusyWithoutCause }
{}

/// Answers that aren't those of the run.
pub fn other_answers()
    ensures other_operations { OtherOperations }
    ensures halts_hart_0 { ¬ HaltsHart0 }
    ensures other_causes { OtherCauses }
{}

/// Bytes that a hart put out in another order than they have in the witness.
pub fn exchanged_output()
    ensures output_exchanged { OutputExchanged }
{}

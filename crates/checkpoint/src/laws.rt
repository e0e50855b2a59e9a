//! What is accepted as a checkpoint and what is read back, as theorems: there is nothing to run.

ghost use Rattle.std.specs.Prelude.{◌≡◌, ◌≤◌, length, None, Ok};
ghost use Rattle.checkpoint.specs.TreeModel.State.Values.{MachineValue};
ghost use Rattle.checkpoint.specs.TreeModel.State.Shape.{frame_of};
ghost use Rattle.checkpoint.specs.TextModel.declared.RunCounts.{RunCounts};
ghost use Rattle.checkpoint.specs.StateJudging.Judged.{judged};
ghost use Rattle.checkpoint.specs.StateJudging.Read.{CanRead};
ghost use Rattle.spelling_laws.specs.Small.{IsSmall};
ghost use Rattle.spelling_laws.specs.Spelled.{IsSpelled};
ghost use Rattle.checkpoint.specs.Saved.{saved};
ghost use Rattle.checkpoint.specs.Resumed.{resumed};
ghost use Rattle.checkpoint.specs.Fits.{CountsFit};
ghost use Rattle.checkpoint.specs.Laws.{AcceptedIsSaved, SavedIsReadBack};

/// A file that is accepted is what is saved of the machine that it gives: so a state has one spelling.
pub fn accepted_is_saved()
    ensures { AcceptedIsSaved }
{}

/// What is saved of a machine that keeps the rules is read back as that machine and these counts, where there are so few items, places
/// and operations that their numbers are words, and the file isn't too long.
pub fn saved_machines_are_read_back()
    ensures { (fresh m : MachineValue) (c : RunCounts) → CanRead fresh → frame_of m ≡ frame_of fresh →
        IsSpelled m → IsSmall m → judged m ≡ None → c.retired ≡ length m.ops → CountsFit c
        → length (saved m c) ≤ 536870912 → resumed fresh (saved m c) ≡ Ok (record { machine = m; counts = c }) }
{}

/// So what is saved of a run is read back.
pub fn saved_is_read_back()
    ensures { SavedIsReadBack }
{}

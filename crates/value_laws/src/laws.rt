//! What the numbers and the lists of words in a machine of a run are, as theorems: there is nothing to run.

ghost use Rattle.std.specs.Prelude.{◌≡◌, ℕ, ◌+◌, ◌≤◌, List, length, Ok};
ghost use Rattle.value_laws.specs.DdmTypes.declared.turns.Turn.{Turn};
ghost use Rattle.value_laws.specs.TreeModel.State.Values.{MachineValue};
ghost use Rattle.value_laws.specs.TreeModel.State.Shape.{IsShaped};
ghost use Rattle.value_laws.specs.TreeModel.Turns.Machine.{turn_of, run_of};
ghost use Rattle.value_laws.specs.TreeModel.Start.Sources.{TreeValue, ImageValue};
ghost use Rattle.value_laws.specs.TreeModel.Start.Machine.{start_of};
ghost use Rattle.bus_laws.specs.IsTree.{IsTree};
ghost use Rattle.value_laws.specs.Values.{HasForm};
ghost use Rattle.value_laws.specs.Images.{IsOfBytes};

/// Where the numbers of a machine are so, they are so after a turn, which counts one more at most.
pub fn turn_keeps_form()
    ensures { (t : Turn) (most : ℕ) (m : MachineValue) → IsShaped m → HasForm most m → HasForm (most + 1) (turn_of t m).machine }
{}

/// And after a run, no count of which is above that of its turns.
pub fn run_keeps_form()
    ensures { (ts : List Turn) (most : ℕ) (m : MachineValue) → IsShaped m → HasForm most m →
        HasForm (most + length ts) (run_of ts m).machine }
{}

/// A machine of a tree and an image of bytes begins so.
pub fn start_has_form()
    ensures { (t : TreeValue) (i : ImageValue) (m : MachineValue) → IsTree t → IsOfBytes i → start_of t i ≡ Ok m → HasForm 0 m }
{}

/// So in every machine of a run no count is above the number of its turns.
pub fn every_run_has_form()
    ensures { (t : TreeValue) (i : ImageValue) (m : MachineValue) → IsTree t → IsOfBytes i → start_of t i ≡ Ok m →
        (ts : List Turn) → HasForm (length ts) (run_of ts m).machine }
{}

/// Where no count is above a bound, none is above a greater one.
pub fn form_has_greater_bounds()
    ensures { (most more : ℕ) (m : MachineValue) → most ≤ more → HasForm most m → HasForm more m }
{}

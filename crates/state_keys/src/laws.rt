//! What the words of states tell, as theorems: each clause is one, and there is nothing to run.

ghost use Rattle.std.specs.Prelude.{◌≡◌, ℕ, true, nat_eq, List, Ok};
ghost use Rattle.std.specs.Cmp.Lexicographic.{pointwise};
ghost use Rattle.bus_laws.specs.IsTree.{IsTree};
ghost use Rattle.state_keys.specs.DdmTypes.declared.turns.Turn.{Turn};
ghost use Rattle.state_keys.specs.TreeModel.Start.Machine.{start_of};
ghost use Rattle.state_keys.specs.TreeModel.Start.Sources.{ImageValue, TreeValue};
ghost use Rattle.state_keys.specs.TreeModel.State.Values.{MachineValue};
ghost use Rattle.state_keys.specs.TreeModel.State.Shape.{frame_of};
ghost use Rattle.state_keys.specs.TreeModel.Turns.Machine.{run_of};
ghost use Rattle.state_keys.specs.TreeRules.Bus.Rules.{IsMachineOk};
ghost use Rattle.state_keys.specs.StateJudging.Read.{CanRead};
ghost use Rattle.value_laws.specs.Images.{IsOfBytes};
ghost use Rattle.value_laws.specs.Values.{HasForm};
ghost use Rattle.time_laws.specs.Forget.{Alike};
ghost use Rattle.state_keys.specs.Key.{state_key};
ghost use Rattle.state_keys.specs.Same.{same_state};

/// Machines of one start, which keep the rules of their buses and whose values have their form, have the same words exactly where they
/// are alike. Words are read into `fresh`, which has their frame.
pub fn keys_are_exact()
    ensures alike { (fresh m n : MachineValue) (most : ℕ) → CanRead fresh → frame_of m ≡ frame_of fresh →
        frame_of n ≡ frame_of fresh → IsMachineOk m → IsMachineOk n → HasForm most m → HasForm most n →
        state_key m ≡ state_key n → Alike m n }
    ensures same { (m n : MachineValue) → Alike m n → state_key m ≡ state_key n }
{}

/// The test of machines is true exactly where they are alike.
pub fn states_are_told()
    ensures alike { (m n : MachineValue) → same_state m n ≡ true → Alike m n }
    ensures finds { (m n : MachineValue) → Alike m n → same_state m n ≡ true }
{}

/// So in the runs of one start it says what the words do.
pub fn runs_are_told()
    ensures { (t : TreeValue) (i : ImageValue) (m : MachineValue) → IsTree t → IsOfBytes i → start_of t i ≡ Ok m →
        (ts us : List Turn) →
        same_state (run_of ts m).machine (run_of us m).machine
        ≡ pointwise nat_eq (state_key (run_of ts m).machine) (state_key (run_of us m).machine) }
{}

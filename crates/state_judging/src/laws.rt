//! What was read and is judged well keeps the rules, and what keeps them is judged well, as theorems: there is nothing to run.

ghost use Rattle.std.specs.Prelude.{◌≡◌, ◌<◌, ℕ, List, ◌∷◌, None, Ok};
ghost use Rattle.state_judging.specs.TreeModel.State.Values.{MachineValue};
ghost use Rattle.state_judging.specs.TreeModel.State.Shape.{IsShaped, frame_of};
ghost use Rattle.state_judging.specs.TreeModel.Start.Sources.{SegmentValue, ImageValue, TreeValue};
ghost use Rattle.state_judging.specs.TreeModel.Start.Machine.{start_of};
ghost use Rattle.state_judging.specs.TreeRules.Bus.Rules.{IsMachineOk, items_of_machine};
ghost use Rattle.state_judging.specs.TreeRules.Order.Rules.{IsTimed};
ghost use Rattle.bus_laws.specs.IsTree.{IsTree};
ghost use Rattle.state_reading.specs.Machine.{read_words};
ghost use Rattle.state_judging.specs.Judged.{judged};
ghost use Rattle.state_judging.specs.Read.{CanRead, IsRead};

/// Words can be read into a machine before its first turn.
pub fn started_machines_can_be_read()
    ensures { (t : TreeValue) (i : ImageValue) (m : MachineValue) → IsTree t → start_of t i ≡ Ok m → CanRead m }
{}

/// What is read into a machine before its first turn keeps, whatever the words are, what each part keeps by itself; and nothing that
/// no turn changes is changed.
pub fn what_is_read()
    ensures { (fresh m : MachineValue) (retired k at : ℕ) (ws rest : List ℕ) → CanRead fresh →
        read_words fresh retired k ws ≡ Ok (record { value = m; at = at; rest = rest })
        → IsRead m × (frame_of m ≡ frame_of fresh) }
{}

/// A state that was read, and in which judging finds nothing broken, keeps the rules of every bus and of time.
pub fn judged_states_keep_the_rules()
    ensures { (m : MachineValue) → IsShaped m → IsRead m → judged m ≡ None → IsMachineOk m × IsTimed m }
{}

/// Where the rules are kept, judging finds nothing broken.
pub fn kept_rules_are_judged_so()
    ensures { (m : MachineValue) → IsMachineOk m → IsTimed m → judged m ≡ None }
{}

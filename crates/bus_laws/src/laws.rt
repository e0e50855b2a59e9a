//! The rules of a bus hold at the start and after every turn, as theorems: there is nothing to run.

ghost use Rattle.std.specs.Prelude.{◌≡◌, ℕ, ◌<◌, true, List, is_some, Ok};
ghost use Rattle.std.specs.List.{AllByRecursion};
ghost use Rattle.bus_laws.specs.DdmTypes.declared.keys.Key.{Key};
ghost use Rattle.bus_laws.specs.DdmTypes.declared.keys.Stamp.{Stamp};
ghost use Rattle.bus_laws.specs.DdmTypes.declared.turns.Turn.{Turn};
ghost use Rattle.bus_laws.specs.DdmTypes.ItemTable.{ItemTable, item_count};
ghost use Rattle.bus_laws.specs.DdmTypes.CodeMap.{CodeWord};
ghost use Rattle.bus_laws.specs.TreeModel.declared.BusTurn.{BusTurn};
ghost use Rattle.bus_laws.specs.TreeModel.State.Values.{LeafValue, DirValue, Node, MachineValue};
ghost use Rattle.bus_laws.specs.TreeModel.State.Shape.{IsShaped};
ghost use Rattle.bus_laws.specs.TreeModel.Turns.HartTurn.{leaf_step};
ghost use Rattle.bus_laws.specs.TreeModel.Turns.Bus.{bus_step};
ghost use Rattle.bus_laws.specs.TreeModel.Turns.Machine.{turn_of, run_of};
ghost use Rattle.bus_laws.specs.TreeModel.Turns.Found.{found_copy};
ghost use Rattle.bus_laws.specs.TreeModel.Start.Sources.{TreeValue, ImageValue};
ghost use Rattle.bus_laws.specs.TreeModel.Start.Machine.{start_of};
ghost use Rattle.tree_rules.specs.Bus.Own.{IsLeafOk};
ghost use Rattle.tree_rules.specs.Bus.Rules.{IsBusOk, IsChildOk, IsMachineOk, items_of_machine};
ghost use Rattle.bus_laws.specs.KeepsBus.{KeepsBus};
ghost use Rattle.bus_laws.specs.IsTree.{IsTree};
ghost use Rattle.bus_laws.specs.KeepsLeafRules.{KeepsLeafRules};

/// A hart's turn keeps the rules of its leaf, and its bus sees the same of each item.
pub fn hart_turn_keeps_rules()
    ensures { (code : List CodeWord) (items : ItemTable) (now : Key) (victim : ℕ) (v : LeafValue) → IsLeafOk (item_count items) v
        → KeepsLeafRules (item_count items) v (leaf_step code items now victim v).leaf }
{}

/// A turn of a bus keeps its rules, those of each child, and what the bus above sees of the parent, whatever it answers.
pub fn bus_turn_keeps_rules()
    ensures { (n : ℕ) (above : Stamp) (t : BusTurn) (p : DirValue) (ns : List Node) → IsBusOk n p ns → AllByRecursion (IsChildOk n) ns
        → KeepsBus n above p ns (bus_step above t p ns) }
{}

/// Every turn keeps the rules of every bus.
pub fn turn_keeps_rules()
    ensures { (t : Turn) (m : MachineValue) → IsMachineOk m → IsMachineOk (turn_of t m).machine }
{}

/// So does a run.
pub fn run_keeps_rules()
    ensures { (ts : List Turn) (m : MachineValue) → IsMachineOk m → IsMachineOk (run_of ts m).machine }
{}

/// A machine before its first turn has its shape and keeps the rules.
pub fn start_keeps_rules()
    ensures shape { (t : TreeValue) (i : ImageValue) (m : MachineValue) → IsTree t → start_of t i ≡ Ok m → IsShaped m }
    ensures rules { (t : TreeValue) (i : ImageValue) (m : MachineValue) → IsTree t → start_of t i ≡ Ok m → IsMachineOk m }
{}

/// Where the rules hold, every item has a found copy.
pub fn found_copy_exists()
    ensures { (m : MachineValue) → IsMachineOk m → (x : ℕ) → x < items_of_machine m → is_some (found_copy x m) ≡ true }
{}

//! What holds of every turn, whatever the state, as theorems: each clause is one, and there is nothing to run.

ghost use Rattle.std.specs.Prelude.{◌≡◌, ℕ, true, false, List};
ghost use Rattle.tree_model.specs.DdmTypes.declared.turns.Turn.{Turn};
ghost use Rattle.tree_model.specs.DdmTypes.declared.keys.Stamp.{Stamp};
ghost use Rattle.tree_model.specs.DdmTypes.declared.keys.Key.{Key};
ghost use Rattle.tree_model.specs.DdmTypes.ItemTable.{ItemTable};
ghost use Rattle.tree_model.specs.DdmTypes.CodeMap.{CodeWord};
ghost use Rattle.tree_model.specs.declared.BusTurn.{BusTurn};
ghost use Rattle.tree_model.specs.State.Values.{LeafValue, DirValue, Node, MachineValue, root_of};
ghost use Rattle.tree_model.specs.State.Shape.{IsShaped, frame_of};
ghost use Rattle.tree_model.specs.Turns.Tree.{has_node};
ghost use Rattle.tree_model.specs.Turns.Bus.{bus_step};
ghost use Rattle.tree_model.specs.Turns.HartTurn.{leaf_step};
ghost use Rattle.tree_model.specs.Turns.Machine.{named_by, turn_of, run_of};
ghost use Rattle.tree_model.specs.Laws.{ChangesOneNode, ChangesNothing, IsWithin, KeepsParts, KeepsLeaf};

/// A turn changes the node that it names, and no other.
pub fn turn_changes_one_node()
    ensures there { (t : Turn) (m : MachineValue) → has_node (named_by t) (root_of m) ≡ true → ChangesOneNode t m }
    ensures absent { (t : Turn) (m : MachineValue) → has_node (named_by t) (root_of m) ≡ false → ChangesNothing t m }
{}

/// No turn changes the tree's nodes, their numbers, levels and sizes, the code and the items: so the shape stays.
pub fn turn_keeps_shape()
    ensures frame { (t : Turn) (m : MachineValue) → frame_of (turn_of t m).machine ≡ frame_of m }
    ensures shape { (t : Turn) (m : MachineValue) → IsShaped m → IsShaped (turn_of t m).machine }
    ensures runs { (ts : List Turn) (m : MachineValue) → IsShaped m → IsShaped (run_of ts m).machine }
{}

/// No turn puts more into a list than it has places, and none forgets an item.
pub fn turn_keeps_room()
    ensures turns { (n : ℕ) (t : Turn) (m : MachineValue) → IsWithin n m → IsWithin n (turn_of t m).machine }
    ensures runs { (n : ℕ) (ts : List Turn) (m : MachineValue) → IsWithin n m → IsWithin n (run_of ts m).machine }
{}

/// A turn of a bus changes nothing below its children, no hart, and no time but its own; a hart's turn keeps its leaf's number
/// and sizes.
pub fn turn_keeps_parts()
    ensures bus { (above : Stamp) (t : BusTurn) (p : DirValue) (ns : List Node) → KeepsParts p ns (bus_step above t p ns) }
    ensures hart { (code : List CodeWord) (items : ItemTable) (now : Key) (victim : ℕ) (v : LeafValue)
        → KeepsLeaf v (leaf_step code items now victim v).leaf }
{}

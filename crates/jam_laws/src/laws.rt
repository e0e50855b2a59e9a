//! Why a machine of buses with large lists never jams, as theorems: there is nothing to run.

ghost use Rattle.std.specs.Prelude.{◌≡◌, ℕ, true, false, List, Ok, Some, None};
ghost use Rattle.std.specs.List.{AllByRecursion};
ghost use Rattle.jam_laws.specs.DdmTypes.declared.turns.Turn.{Turn};
ghost use Rattle.jam_laws.specs.TreeModel.State.Values.{DirValue, Node, MachineValue};
ghost use Rattle.jam_laws.specs.TreeModel.State.Shape.{IsShaped};
ghost use Rattle.jam_laws.specs.TreeModel.Turns.Machine.{turn_of, run_of};
ghost use Rattle.jam_laws.specs.TreeModel.Start.Sources.{TreeValue, ImageValue};
ghost use Rattle.jam_laws.specs.TreeModel.Start.Machine.{start_of};
ghost use Rattle.jam_laws.specs.TreeRules.Bus.Rules.{IsBusOk, IsChildOk, IsMachineOk, items_of_machine};
ghost use Rattle.bus_laws.specs.IsTree.{IsTree};
ghost use Rattle.jam_laws.specs.GoesOn.{some_leaf_waits, has_large_lists, sizes_are_large, HasShortLists, is_granted};
ghost use Rattle.jam_laws.specs.GoesOn.{finds_list_full, granted_or_full, unjamming_turn, SomeTurn, IsFirstGranted};

/// Where the rules of a bus hold, at most four entries of an item come down to its parent, which asks for it once at most, and
/// each child has one reply of it at most.
pub fn lists_stay_short()
    ensures { (n : ℕ) (p : DirValue) (ns : List Node) → IsBusOk n p ns → AllByRecursion (IsChildOk n) ns → HasShortLists n p ns }
{}

/// So on large lists no turn finds a list full. Lists that are large stay so.
pub fn lists_never_full()
    ensures never { (t : Turn) (m : MachineValue) → IsMachineOk m → has_large_lists m ≡ true →
        finds_list_full (turn_of t m).answer ≡ false }
    ensures stay { (t : Turn) (m : MachineValue) → has_large_lists (turn_of t m).machine ≡ has_large_lists m }
    ensures start { (t : TreeValue) (i : ImageValue) (m : MachineValue) → start_of t i ≡ Ok m →
        sizes_are_large t.sizes (items_of_machine m) ≡ true → has_large_lists m ≡ true }
{}

/// Whatever the lists: where a leaf waits, a Down, Reply or Request turn of some bus is granted or finds a list full.
pub fn only_full_lists_jam()
    ensures { (m : MachineValue) → IsShaped m → IsMachineOk m → some_leaf_waits m ≡ true → SomeTurn m granted_or_full }
{}

/// On large lists one of them is granted.
pub fn some_bus_goes_on()
    ensures { (m : MachineValue) → IsShaped m → IsMachineOk m → has_large_lists m ≡ true →
        some_leaf_waits m ≡ true → SomeTurn m is_granted }
{}

/// So a run of a tree with large lists never comes to where a leaf waits and no bus goes on.
pub fn no_run_jams()
    ensures { (t : TreeValue) (i : ImageValue) (m : MachineValue) → IsTree t → start_of t i ≡ Ok m →
        sizes_are_large t.sizes (items_of_machine m) ≡ true
        → (ts : List Turn) → some_leaf_waits (run_of ts m).machine ≡ true → SomeTurn (run_of ts m).machine is_granted }
{}

/// The turn that is named is the first that would be granted; none is named just where no leaf waits.
pub fn unjamming_turn_is_first()
    ensures first { (m : MachineValue) (t : Turn) → unjamming_turn m ≡ Some t → IsFirstGranted m t }
    ensures none { (m : MachineValue) → IsShaped m → IsMachineOk m → has_large_lists m ≡ true →
        unjamming_turn m ≡ None → some_leaf_waits m ≡ false }
    ensures none_waits { (m : MachineValue) → some_leaf_waits m ≡ false → unjamming_turn m ≡ None }
{}

//! Lists of operations and one state of the machine, as theorems: there is nothing to run.

ghost use Rattle.std.specs.Prelude.{◌≡◌, ℕ, ◌<◌, List, [], ◌∷◌, ◌++◌, filter, Some};
ghost use Rattle.std.specs.List.{AllByRecursion};
ghost use Rattle.order_lists.specs.DdmTypes.declared.operations.Op.{Op};
ghost use Rattle.order_lists.specs.DdmTypes.ItemTable.{ItemTable};
ghost use Rattle.order_lists.specs.DdmTypes.CodeMap.{CodeWord};
ghost use Rattle.order_lists.specs.FlatModel.Flat.{FlatMachine};
ghost use Rattle.order_lists.specs.FlatModel.Legal.{is_of, HasWholeWords, legal_run};
ghost use Rattle.order_lists.specs.TreeModel.State.Values.{MachineValue};
ghost use Rattle.order_lists.specs.TreeModel.State.Shape.{IsShaped};
ghost use Rattle.order_lists.specs.TreeModel.Turns.Found.{found_words};
ghost use Rattle.order_lists.specs.TreeModel.Turns.Witness.{sorted_ops};
ghost use Rattle.tree_rules.specs.Statements.{Holds, each_pair};
ghost use Rattle.tree_rules.specs.Bus.Rules.{IsMachineOk, items_of_machine};
ghost use Rattle.tree_rules.specs.Order.Time.{keys_differ};
ghost use Rattle.tree_rules.specs.Order.Core.{any_op, is_in_own_order};
ghost use Rattle.tree_rules.specs.Order.Ops.{words_where};
ghost use Rattle.tree_rules.specs.Order.Copies.{copies_of};
ghost use Rattle.tree_rules.specs.Order.Places.{leaves_at};
ghost use Rattle.tree_rules.specs.Order.Rules.{IsTimed, IsCore};
ghost use Rattle.order_lists.specs.InKeyOrder.{InKeyOrder, StandsInOrder, ComesAfter, StaysLegal};
ghost use Rattle.order_lists.specs.Copies.{HasChangesToItsEnd, EndsAfterItsClock, IsAloneWhereExclusive};

/// Where keys differ, sorting puts the operations in the order of their keys, and one more operation in its place among them.
pub fn sorted_in_key_order()
    ensures sorted { (ops : List Op) → Holds (each_pair keys_differ ops) → InKeyOrder ops (sorted_ops ops) }
    ensures pushed { (ops : List Op) (o : Op) → Holds (each_pair keys_differ (ops ++ o ∷ [])) → StandsInOrder ops o }
{}

/// Where each hart's keys rise, its operations stand in the sorted list in the order in which they completed.
pub fn own_order_kept()
    ensures { (h : ℕ) (ops : List Op) → Holds (each_pair is_in_own_order ops) → filter (is_of h) (sorted_ops ops) ≡ filter (is_of h) ops }
{}

/// One more operation leaves the sorted list legal, where it comes after those of its hart and those on the item that it
/// changes.
pub fn one_more_stays_legal()
    ensures { (code : List CodeWord) (items : ItemTable) (s without : FlatMachine) (ops : List Op) (o : Op) →
        HasWholeWords items → Holds (each_pair keys_differ (ops ++ o ∷ []))
        → AllByRecursion (ComesAfter items o) ops → legal_run code items s (sorted_ops ops) ≡ Some without →
        StaysLegal code items s without ops o }
{}

/// A copy's words are those after any set of operations that has each change of the item but those after the copy's end; and
/// its end comes after its clock.
pub fn copy_words_known()
    ensures words { (s : FlatMachine) (m : MachineValue) (x : ℕ) → IsShaped m → IsTimed m → IsCore s m → x < items_of_machine m
        → AllByRecursion (HasChangesToItsEnd s m x) (copies_of x m) }
    ensures ends { (s : FlatMachine) (m : MachineValue) (x : ℕ) → IsShaped m → IsTimed m → IsCore s m →
        AllByRecursion EndsAfterItsClock (copies_of x m) }
{}

/// Where a leaf holds an item Exclusive, each operation on it is less than the leaf's present key, and no other copy goes on.
pub fn exclusive_leaf_is_alone()
    ensures { (s : FlatMachine) (m : MachineValue) (x : ℕ) → IsShaped m → IsMachineOk m → IsTimed m → IsCore s m → x < items_of_machine m
        → AllByRecursion (IsAloneWhereExclusive m x) (leaves_at m) }
{}

/// The found copy of an item has the words that all operations leave.
pub fn found_copy_is_current()
    ensures { (s : FlatMachine) (m : MachineValue) (x : ℕ) → IsMachineOk m → IsCore s m → x < items_of_machine m
        → found_words x m ≡ Some (words_where s m.items m.ops x any_op) }
{}

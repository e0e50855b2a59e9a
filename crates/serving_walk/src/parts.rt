//! The parts of a tree below a bus: which is over a leaf, and which holds an item.

ghost use Rattle.std.specs.Prelude.{◌≡◌, ◌<◌, IfSome, None, Some, is_some, true, List};
ghost use Rattle.headline.specs.DdmTypes.ItemTable.{item_count};
ghost use Rattle.headline.specs.DdmTypes.declared.turns.Turn.{Turn};
ghost use Rattle.headline.specs.TreeModel.State.Shape.{IsShaped};
ghost use Rattle.headline.specs.TreeModel.State.States.{is_exclusive, is_held};
ghost use Rattle.headline.specs.TreeModel.State.Values.{Node};
ghost use Rattle.headline.specs.TreeModel.State.Child.{child_hold, child_holds};
ghost use Rattle.headline.specs.TreeModel.Turns.Children.{other_holds};
ghost use Rattle.headline.specs.TreeModel.Turns.Machine.{child_count, is_child_of};
ghost use Rattle.serving_model.specs.Walk.{child_over, holder, is_over, other_holder};
ghost use Rattle.headline.specs.TreeModel.Turns.Tree.{is_named, leaf_of_number};
ghost use Rattle.serving_walk.specs.Parts.{IsBus, OfBuses, bus_count, bus_of, kids_of, part_at, under};

use crate::tree::Tree;
use ddm_types::{BusNo, ChildNo, Hold, ItemId, LeafNo};
use headline::of_tree_model::TreeChild;

/// The bus below a child, which a leaf hasn't.
pub(crate) fn below<T: Tree>(tree: &T, bus: BusNo, child: ChildNo) -> Option<BusNo>
    requires shaped { IsShaped (T.value tree.now) }
    requires child { is_child_of child (child_count bus (T.value tree.now)) ≡ true }
    ensures bus { result ≡ bus_of (under bus child (T.value tree.now)) }
    ensures there { IsBus result (T.value tree.now) }
    ensures part { IfSome result (λ p. part_at (Some p) (T.value tree.now) ≡ under bus child (T.value tree.now)) }
    ensures fewer { bus_count (part_at result (T.value tree.now)) < bus_count (part_at (Some bus) (T.value tree.now)) }
    ensures same { (turns : Node → List Turn) → OfBuses turns →
        turns (part_at result (T.value tree.now)) ≡ turns (under bus child (T.value tree.now)) }
{
    match tree.child(bus, child) {
        TreeChild::LeafChild(_) => None,
        TreeChild::BusChild(part) => Some(part),
    }
}

/// Whether a child of a bus is the leaf.
fn is_leaf<T: Tree>(tree: &T, bus: BusNo, child: ChildNo, leaf: LeafNo) -> bool
    requires shaped { IsShaped (T.value tree.now) }
    requires child { is_child_of child (child_count bus (T.value tree.now)) ≡ true }
    ensures { result ≡ is_named (leaf_of_number leaf) (under bus child (T.value tree.now)) }
{
    match tree.child(bus, child) {
        TreeChild::LeafChild(number) => number == leaf,
        TreeChild::BusChild(_) => false,
    }
}

/// Whether a child of a bus is over the leaf, or is the leaf.
#[cycle(over)]
fn is_over<T: Tree>(tree: &T, bus: BusNo, child: ChildNo, leaf: LeafNo) -> bool
    requires shaped { IsShaped (T.value tree.now) }
    requires child { is_child_of child (child_count bus (T.value tree.now)) ≡ true }
    ensures { result ≡ is_over leaf child (under bus child (T.value tree.now)) }
{
    match below(tree, bus, child) {
        Some(part) => over(tree, part, leaf).is_some(),
        None => is_leaf(tree, bus, child, leaf),
    }
}

/// The lowest of so many children of a bus that is over the leaf.
#[cycle(over)]
fn first_over<T: Tree>(tree: &T, bus: BusNo, leaf: LeafNo, kids: u32) -> Option<ChildNo>
    requires shaped { IsShaped (T.value tree.now) }
    requires kids { Some kids ≡ child_count bus (T.value tree.now) }
    ensures over { result ≡ child_over leaf (kids_of (part_at (Some bus) (T.value tree.now))) }
    ensures child { IfSome result (λ c. is_child_of c (child_count bus (T.value tree.now)) ≡ true) }
{
    for child in 0..kids {
        if is_over(tree, bus, ChildNo(child), leaf) {
            return Some(ChildNo(child));
        }
    }
    None
}

/// The child of a bus that is over the leaf.
#[cycle(over)]
pub(crate) fn over<T: Tree>(tree: &T, bus: BusNo, leaf: LeafNo) -> Option<ChildNo>
    requires shaped { IsShaped (T.value tree.now) }
    requires there { is_some (child_count bus (T.value tree.now)) ≡ true }
    ensures over { result ≡ child_over leaf (kids_of (part_at (Some bus) (T.value tree.now))) }
    ensures child { IfSome result (λ c. is_child_of c (child_count bus (T.value tree.now)) ≡ true) }
{
    let kids = tree.children(bus);
    first_over(tree, bus, leaf, kids)
}

fn is_held(hold: Hold) -> bool
    ensures { result ≡ is_held hold }
{
    match hold {
        Hold::Invalid => false,
        Hold::Shared | Hold::Exclusive => true,
    }
}

fn is_exclusive(hold: Hold) -> bool
    ensures { result ≡ is_exclusive hold }
{
    match hold {
        Hold::Invalid | Hold::Shared => false,
        Hold::Exclusive => true,
    }
}

/// Whether a child of a bus holds the item.
pub(crate) fn holds<T: Tree>(tree: &T, bus: BusNo, child: ChildNo, item: ItemId) -> bool
    requires shaped { IsShaped (T.value tree.now) }
    requires child { is_child_of child (child_count bus (T.value tree.now)) ≡ true }
    requires item { item < item_count (T.value tree.now).items }
    ensures { result ≡ child_holds item (under bus child (T.value tree.now)) }
{
    is_held(tree.child_hold(bus, child, item))
}

/// Whether a child of a bus holds the item Exclusive.
pub(crate) fn holds_exclusive<T: Tree>(tree: &T, bus: BusNo, child: ChildNo, item: ItemId) -> bool
    requires shaped { IsShaped (T.value tree.now) }
    requires child { is_child_of child (child_count bus (T.value tree.now)) ≡ true }
    requires item { item < item_count (T.value tree.now).items }
    ensures { result ≡ is_exclusive (child_hold item (under bus child (T.value tree.now))) }
{
    is_exclusive(tree.child_hold(bus, child, item))
}

/// The lowest of so many children of a bus that holds the item.
fn first_holder<T: Tree>(tree: &T, bus: BusNo, item: ItemId, kids: u32) -> Option<ChildNo>
    requires shaped { IsShaped (T.value tree.now) }
    requires kids { Some kids ≡ child_count bus (T.value tree.now) }
    requires item { item < item_count (T.value tree.now).items }
    ensures holder { result ≡ holder item (kids_of (part_at (Some bus) (T.value tree.now))) }
    ensures child { IfSome result (λ c. is_child_of c (child_count bus (T.value tree.now)) ≡ true) }
{
    for child in 0..kids {
        if holds(tree, bus, ChildNo(child), item) {
            return Some(ChildNo(child));
        }
    }
    None
}

/// The lowest child of a bus that holds the item.
pub(crate) fn holder<T: Tree>(tree: &T, bus: BusNo, item: ItemId) -> Option<ChildNo>
    requires shaped { IsShaped (T.value tree.now) }
    requires there { is_some (child_count bus (T.value tree.now)) ≡ true }
    requires item { item < item_count (T.value tree.now).items }
    ensures holder { result ≡ holder item (kids_of (part_at (Some bus) (T.value tree.now))) }
    ensures child { IfSome result (λ c. is_child_of c (child_count bus (T.value tree.now)) ≡ true) }
{
    let kids = tree.children(bus);
    first_holder(tree, bus, item, kids)
}

/// Whether another child of a bus than this one holds the item.
fn other_holds<T: Tree>(tree: &T, bus: BusNo, child: ChildNo, than: ChildNo, item: ItemId) -> bool
    requires shaped { IsShaped (T.value tree.now) }
    requires child { is_child_of child (child_count bus (T.value tree.now)) ≡ true }
    requires item { item < item_count (T.value tree.now).items }
    ensures { result ≡ other_holds than item child (under bus child (T.value tree.now)) }
{
    child != than && holds(tree, bus, child, item)
}

/// The lowest of so many children of a bus, but for this one, that holds the item.
fn first_other<T: Tree>(
    tree: &T,
    bus: BusNo,
    than: ChildNo,
    item: ItemId,
    kids: u32,
) -> Option<ChildNo>
    requires shaped { IsShaped (T.value tree.now) }
    requires kids { Some kids ≡ child_count bus (T.value tree.now) }
    requires item { item < item_count (T.value tree.now).items }
    ensures holder { result ≡ other_holder than item (kids_of (part_at (Some bus) (T.value tree.now))) }
    ensures child { IfSome result (λ c. is_child_of c (child_count bus (T.value tree.now)) ≡ true) }
{
    for child in 0..kids {
        if other_holds(tree, bus, ChildNo(child), than, item) {
            return Some(ChildNo(child));
        }
    }
    None
}

/// The lowest child of a bus, but for this one, that holds the item.
pub(crate) fn other_holder<T: Tree>(
    tree: &T,
    bus: BusNo,
    than: ChildNo,
    item: ItemId,
) -> Option<ChildNo>
    requires shaped { IsShaped (T.value tree.now) }
    requires there { is_some (child_count bus (T.value tree.now)) ≡ true }
    requires item { item < item_count (T.value tree.now).items }
    ensures holder { result ≡ other_holder than item (kids_of (part_at (Some bus) (T.value tree.now))) }
    ensures child { IfSome result (λ c. is_child_of c (child_count bus (T.value tree.now)) ≡ true) }
{
    let kids = tree.children(bus);
    first_other(tree, bus, than, item, kids)
}

//! The walk of a read.

ghost use Rattle.std.specs.Prelude.{◌≡◌, ◌<◌, ◌++◌, OnOk, Some, is_some, true};
ghost use Rattle.headline.specs.DdmTypes.ItemTable.{item_count};
ghost use Rattle.headline.specs.TreeModel.State.Shape.{IsShaped};
ghost use Rattle.headline.specs.TreeModel.Turns.Machine.{child_count, is_child_of};
ghost use Rattle.serving_model.specs.Walk.{ask_turns, give_turns, read_across, read_turns};
ghost use Rattle.serving_walk.specs.Parts.{IsBus, kids_of, part_at};

use crate::parts::{below, holder, holds, other_holder, over};
use crate::taking::take;
use crate::tree::Tree;
use ddm_types::{BusNo, ChildNo, ItemId, LeafNo, NoMemory, Turn};

/// Adds the turns by which a read goes up from the leaf, in this part of the tree.
fn ask<T: Tree>(
    tree: &T,
    leaf: LeafNo,
    part: Option<BusNo>,
    out: &mut Vec<Turn>,
) -> Result<(), NoMemory>
    requires shaped { IsShaped (T.value tree.now) }
    requires there { IsBus part (T.value tree.now) }
    ensures { OnOk result (out.new.items ≡ out.old.items ++ ask_turns leaf (part_at part (T.value tree.now))) }
{
    let Some(bus) = part else { return Ok(()) };
    let Some(child) = over(tree, bus, leaf) else {
        return Ok(());
    };
    ask(tree, leaf, below(tree, bus, child), out)?;
    out.push(Turn::Request { bus, child })?;
    Ok(())
}

/// Adds the turns by which this part of the tree, which was told to answer, gives its copy of the item.
fn give<T: Tree>(
    tree: &T,
    item: ItemId,
    part: Option<BusNo>,
    out: &mut Vec<Turn>,
) -> Result<(), NoMemory>
    requires shaped { IsShaped (T.value tree.now) }
    requires there { IsBus part (T.value tree.now) }
    requires item { item < item_count (T.value tree.now).items }
    ensures { OnOk result (out.new.items ≡ out.old.items ++ give_turns item (part_at part (T.value tree.now))) }
{
    let Some(bus) = part else { return Ok(()) };
    out.push(Turn::Down { bus })?;
    let Some(child) = holder(tree, bus, item) else {
        return Ok(());
    };
    give(tree, item, below(tree, bus, child), out)?;
    out.push(Turn::Reply { bus, child })?;
    Ok(())
}

/// Adds the turns of a read that turns at this bus: from the child that is over the leaf to another one, and back.
fn read_across<T: Tree>(
    tree: &T,
    leaf: LeafNo,
    item: ItemId,
    bus: BusNo,
    child: ChildNo,
    out: &mut Vec<Turn>,
) -> Result<(), NoMemory>
    requires shaped { IsShaped (T.value tree.now) }
    requires there { is_some (child_count bus (T.value tree.now)) ≡ true }
    requires child { is_child_of child (child_count bus (T.value tree.now)) ≡ true }
    requires item { item < item_count (T.value tree.now).items }
    ensures { OnOk result
        (out.new.items
        ≡ out.old.items ++ read_across leaf item bus child (kids_of (part_at (Some bus) (T.value tree.now)))) }
{
    ask(tree, leaf, below(tree, bus, child), out)?;
    out.push(Turn::Request { bus, child })?;
    let Some(other) = other_holder(tree, bus, child, item) else {
        return Ok(());
    };
    give(tree, item, below(tree, bus, other), out)?;
    out.push(Turn::Reply { bus, child: other })?;
    take(tree, leaf, below(tree, bus, child), out)
}

/// Adds the walk of a read that a leaf asks for, in this part of the tree: it turns at the lowest bus over the leaf with a child that
/// holds the item.
pub fn read<T: Tree>(
    tree: &T,
    leaf: LeafNo,
    item: ItemId,
    part: Option<BusNo>,
    out: &mut Vec<Turn>,
) -> Result<(), NoMemory>
    requires shaped { IsShaped (T.value tree.now) }
    requires there { IsBus part (T.value tree.now) }
    requires item { item < item_count (T.value tree.now).items }
    ensures { OnOk result (out.new.items ≡ out.old.items ++ read_turns leaf item (part_at part (T.value tree.now))) }
{
    let Some(bus) = part else { return Ok(()) };
    let Some(child) = over(tree, bus, leaf) else {
        return Ok(());
    };
    if holds(tree, bus, child, item) {
        read(tree, leaf, item, below(tree, bus, child), out)
    } else {
        read_across(tree, leaf, item, bus, child, out)
    }
}

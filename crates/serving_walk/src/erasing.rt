//! The walk of an erase.

ghost use Rattle.std.specs.Prelude.{◌≡◌, ◌<◌, ◌++◌, OnOk, Some, true};
ghost use Rattle.headline.specs.DdmTypes.ItemTable.{item_count};
ghost use Rattle.headline.specs.TreeModel.State.Shape.{IsShaped};
ghost use Rattle.headline.specs.TreeModel.Turns.Machine.{child_count, is_child_of};
ghost use Rattle.serving_model.specs.Walk.{clear_turns, erase_turns, lose_turns};
ghost use Rattle.serving_walk.specs.Parts.{IsBus, is_but, kids_of, lost_by, lost_of, part_at, under};

use crate::parts::{below, holds, holds_exclusive, over};
use crate::taking::take;
use crate::tree::Tree;
use ddm_types::{BusNo, ChildNo, ItemId, LeafNo, NoMemory, Turn};

/// Adds the turns by which a child of a bus, which was told to lose the item, loses it.
#[cycle(lose)]
fn lose<T: Tree>(
    tree: &T,
    item: ItemId,
    bus: BusNo,
    child: ChildNo,
    out: &mut Vec<Turn>,
) -> Result<(), NoMemory>
    requires shaped { IsShaped (T.value tree.now) }
    requires child { is_child_of child (child_count bus (T.value tree.now)) ≡ true }
    requires item { item < item_count (T.value tree.now).items }
    ensures { OnOk result (out.new.items ≡ out.old.items ++ lose_turns item (under bus child (T.value tree.now))) }
{
    if !holds(tree, bus, child, item) {
        return Ok(());
    }
    let Some(part) = below(tree, bus, child) else {
        return Ok(());
    };
    out.push(Turn::Down { bus: part })?;
    let kids = tree.children(part);
    lose_all(tree, item, part, &None, kids, out)
}

/// Whether this child is the one that loses nothing.
fn is_but(but: &Option<ChildNo>, child: ChildNo) -> bool
    ensures { result ≡ is_but but.now child }
{
    match but {
        Some(other) => *other == child,
        None => false,
    }
}

/// Adds them unless it is this child.
#[cycle(lose)]
fn lose_unless<T: Tree>(
    tree: &T,
    item: ItemId,
    bus: BusNo,
    child: ChildNo,
    but: &Option<ChildNo>,
    out: &mut Vec<Turn>,
) -> Result<(), NoMemory>
    requires shaped { IsShaped (T.value tree.now) }
    requires child { is_child_of child (child_count bus (T.value tree.now)) ≡ true }
    requires item { item < item_count (T.value tree.now).items }
    ensures { OnOk result (out.new.items ≡ out.old.items ++ lost_of but.now item child (under bus child (T.value tree.now))) }
{
    if is_but(but, child) {
        return Ok(());
    }
    lose(tree, item, bus, child, out)
}

/// Adds those of all of so many children, but for one.
#[cycle(lose)]
fn lose_all<T: Tree>(
    tree: &T,
    item: ItemId,
    bus: BusNo,
    but: &Option<ChildNo>,
    kids: u32,
    out: &mut Vec<Turn>,
) -> Result<(), NoMemory>
    requires shaped { IsShaped (T.value tree.now) }
    requires kids { Some kids ≡ child_count bus (T.value tree.now) }
    requires item { item < item_count (T.value tree.now).items }
    ensures { OnOk result (out.new.items ≡ out.old.items ++ lost_by but.now item (kids_of (part_at (Some bus) (T.value tree.now)))) }
{
    for child in 0..kids {
        lose_unless(tree, item, bus, ChildNo(child), but, out)?;
    }
    Ok(())
}

/// Adds the turns by which an erase goes up from the leaf, in this part of the tree, and all other copies in it are erased.
fn clear<T: Tree>(
    tree: &T,
    leaf: LeafNo,
    item: ItemId,
    part: Option<BusNo>,
    out: &mut Vec<Turn>,
) -> Result<(), NoMemory>
    requires shaped { IsShaped (T.value tree.now) }
    requires there { IsBus part (T.value tree.now) }
    requires item { item < item_count (T.value tree.now).items }
    ensures { OnOk result (out.new.items ≡ out.old.items ++ clear_turns leaf item (part_at part (T.value tree.now))) }
{
    let Some(bus) = part else { return Ok(()) };
    let Some(child) = over(tree, bus, leaf) else {
        return Ok(());
    };
    clear(tree, leaf, item, below(tree, bus, child), out)?;
    out.push(Turn::Request { bus, child })?;
    let kids = tree.children(bus);
    lose_all(tree, item, bus, &Some(child), kids, out)
}

/// Adds the walk of an erase that a leaf asks for, in this part of the tree: it goes up to the lowest bus over the leaf whose parent
/// holds the item Exclusive.
pub fn erase<T: Tree>(
    tree: &T,
    leaf: LeafNo,
    item: ItemId,
    part: Option<BusNo>,
    out: &mut Vec<Turn>,
) -> Result<(), NoMemory>
    requires shaped { IsShaped (T.value tree.now) }
    requires there { IsBus part (T.value tree.now) }
    requires item { item < item_count (T.value tree.now).items }
    ensures { OnOk result (out.new.items ≡ out.old.items ++ erase_turns leaf item (part_at part (T.value tree.now))) }
{
    let Some(bus) = part else { return Ok(()) };
    let Some(child) = over(tree, bus, leaf) else {
        return Ok(());
    };
    if holds_exclusive(tree, bus, child, item) {
        erase(tree, leaf, item, below(tree, bus, child), out)
    } else {
        clear(tree, leaf, item, part, out)?;
        out.push(Turn::Down { bus })?;
        take(tree, leaf, below(tree, bus, child), out)
    }
}

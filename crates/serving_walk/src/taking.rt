//! What comes down to a leaf.

ghost use Rattle.std.specs.Prelude.{◌≡◌, ◌++◌, OnOk};
ghost use Rattle.headline.specs.TreeModel.State.Shape.{IsShaped};
ghost use Rattle.serving_model.specs.Walk.{take_turns};
ghost use Rattle.serving_walk.specs.Parts.{IsBus, part_at};

use crate::parts::{below, over};
use crate::tree::Tree;
use ddm_types::{BusNo, LeafNo, NoMemory, Turn};

/// Adds the turns by which data or exclusive comes down to the leaf, in this part of the tree.
pub(crate) fn take<T: Tree>(
    tree: &T,
    leaf: LeafNo,
    part: Option<BusNo>,
    out: &mut Vec<Turn>,
) -> Result<(), NoMemory>
    requires shaped { IsShaped (T.value tree.now) }
    requires there { IsBus part (T.value tree.now) }
    ensures { OnOk result (out.new.items ≡ out.old.items ++ take_turns leaf (part_at part (T.value tree.now))) }
{
    let Some(bus) = part else { return Ok(()) };
    out.push(Turn::Down { bus })?;
    match over(tree, bus, leaf) {
        Some(child) => take(tree, leaf, below(tree, bus, child), out),
        None => Ok(()),
    }
}

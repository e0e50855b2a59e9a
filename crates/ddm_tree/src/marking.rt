//! Which items a part of the tree holds before the run.

ghost use Rattle.std.specs.Prelude.{◌≡◌, ◌<◌, ◌^◌, All, length, map, slice_set, true, if◌then◌else◌};
ghost use Rattle.ddm_tree.specs.TreeModel.Start.Nodes.{held_below, held_by, item_is_exclusive, or_each};
ghost use Rattle.ddm_tree.specs.TreeModel.State.States.{is_exclusive};

use crate::of_ddm_types::{Hold, ItemId};
use crate::of_directory::DirState;
use crate::subtree::Subtree;

fn is_exclusive(hold: Hold) -> bool
    ensures { result ≡ is_exclusive hold }
{
    matches!(hold, Hold::Exclusive)
}

/// Marks a place, where the item is held.
fn mark_if(held: &mut [bool], place: usize, is_held: bool)
    requires { place < length held.old }
    ensures { held.new ≡ (if is_held then slice_set held.old place true else held.old) }
{
    if is_held {
        held[place] = true;
    }
}

/// Marks the items that a directory holds Exclusive.
pub(crate) fn mark_exclusive<const WORDS: usize>(state: &DirState<WORDS>, held: &mut [bool])
    requires few { length held.old < 2 ^ 32 }
    requires whole { length held.old ≡ length state.now.items }
    ensures { held.new ≡ or_each held.old (map item_is_exclusive state.now.items) }
{
    for item in 0..held.len() as u32 {
        let hold = state.up_hold(ItemId(item));
        mark_if(held, item as usize, is_exclusive(hold));
    }
}

/// Marks the items that one of the children holds.
pub(crate) fn mark_children<const WORDS: usize, C: Subtree<WORDS>>(
    children: &[C],
    held: &mut [bool],
)
    requires few { length held.old < 2 ^ 32 }
    requires whole { All (λ n. length (held_by n) ≡ length held.old) (map C.value children.now) }
    ensures { held.new ≡ or_each held.old (held_below (map C.value children.now)) }
{
    for child in children {
        child.mark_held(held);
    }
}

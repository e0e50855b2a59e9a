//! The states of an item that a directory doesn't hold.

ghost use Rattle.std.specs.Prelude.{◌≡◌, ◌+◌, ◌<◌, ◌≤◌, ◌++◌, All, false, length, map, take};
ghost use Rattle.ddm_tree.specs.TreeModel.State.Values.{leaf_node};
ghost use Rattle.ddm_tree.specs.TreeModel.State.Leaf.{state_at};
ghost use Rattle.ddm_tree.specs.TreeModel.State.Child.{child_holds};
ghost use Rattle.ddm_tree.specs.Ready.{IsRuled};
ghost use Rattle.ddm_tree.specs.Reads.{is_without, leaf_count_among, states_among};

use crate::of_ddm_types::{Hold, ItemId, LeafState};
use crate::of_item_states::Parent;
use crate::subtree::Subtree;
use leaf_protocol::Leaf;

/// Whether a directory neither holds an item nor has anything of it pending: then none of its children holds the item.
#[inline(always)]
pub(crate) fn is_without<const WORDS: usize, P: Parent<WORDS>>(parent: &P, item: ItemId) -> bool
    requires { item < length (P.state parent.now).items }
    ensures { result ≡ is_without item (P.state parent.now) }
{
    match parent.hold(item) {
        Hold::Invalid => parent.pending(item).is_none(),
        Hold::Shared | Hold::Exclusive => false,
    }
}

/// The state of a leaf's entry of an item that it doesn't hold. It has none unless it waits for the item, and no search says so.
#[inline(always)]
pub(crate) fn unheld_state<const WAYS: usize, const WORDS: usize>(
    leaf: &Leaf<WAYS, WORDS>,
    item: ItemId,
) -> Option<LeafState>
    requires ruled { IsRuled item (leaf_node leaf.now) }
    requires unheld { child_holds item (leaf_node leaf.now) ≡ false }
    ensures { result ≡ state_at item leaf.now }
{
    match leaf.waiting() {
        Some(waiting) => {
            if waiting.0 == item.0 {
                leaf.state(item)
            } else {
                None
            }
        }
        None => None,
    }
}

/// Puts the states of an item's entries at the leaves of parts that don't hold it, in order, into places from one on, and says which
/// place is next.
pub(crate) fn unheld_states_under<const WORDS: usize, C: Subtree<WORDS>>(
    children: &[C],
    item: ItemId,
    states: &mut [Option<LeafState>],
    at: usize,
) -> usize
    requires ruled { All (IsRuled item) (map C.value children.now) }
    requires unheld { All (λ n. child_holds item n ≡ false) (map C.value children.now) }
    requires room { at + leaf_count_among (map C.value children.now) ≤ length states.old }
    ensures next { result ≡ at + leaf_count_among (map C.value children.now) }
    ensures states { take result states.new ≡ take at states.old ++ states_among item (map C.value children.now) }
{
    let mut next = at;
    for child in children {
        next = child.unheld_states_below(item, states, next);
    }
    next
}

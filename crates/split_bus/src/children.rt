//! Loops over the children of a bus.

ghost use Rattle.std.specs.Prelude.{◌≡◌, ◌<◌, length, map};
ghost use Rattle.split_bus.specs.DdmTypes.declared.answers.TxKind.TheVariants.{ExclusiveTx, InjectTx, ReadTx};
ghost use Rattle.split_bus.specs.TreeModel.State.Child.{child_full_for, reader_has_place};
ghost use Rattle.split_bus.specs.TreeModel.Turns.Children.{child_at};
ghost use Rattle.item_states.specs.Parts.{node_items};
ghost use Rattle.split_bus.specs.Outcomes.{HaveItem};

use crate::of_ddm_types::{ChildNo, ItemId, QueueName, TxKind};
use item_states::Agent;

/// Child `c`.
pub(crate) fn child<const WORDS: usize, C: Agent<WORDS>>(
    children: &[C],
    c: ChildNo,
    item: ItemId,
) -> &C
    requires within { c < length children.now }
    requires have { HaveItem item (map C.value children.now) }
    ensures value { C.value result.now ≡ child_at c (map C.value children.now) }
    ensures has { item < node_items (C.value result.now) }
{
    &children[c.0 as usize]
}

/// The list that child `k` needs to answer a read, where it is full.
pub(crate) fn full_to_answer<const WORDS: usize, C: Agent<WORDS>>(
    children: &[C],
    k: ChildNo,
    item: ItemId,
) -> Option<QueueName>
    requires within { k < length children.now }
    requires have { HaveItem item (map C.value children.now) }
    ensures { result ≡ child_full_for ReadTx item (child_at k (map C.value children.now)) }
{
    child(children, k, item).full_for(TxKind::ReadTx, item)
}

/// The list that child `k`, if it is there, needs to take exclusive, where it is full.
pub(crate) fn full_to_take_exclusive<const WORDS: usize, C: Agent<WORDS>>(
    children: &[C],
    k: ChildNo,
    item: ItemId,
) -> Option<QueueName>
    requires { HaveItem item (map C.value children.now) }
    ensures { result ≡ child_full_for ExclusiveTx item (child_at k (map C.value children.now)) }
{
    if (k.0 as usize) < children.len() {
        child(children, k, item).full_for(TxKind::ExclusiveTx, item)
    } else {
        None
    }
}

/// The list that child `k`, if it is there, needs to take inject, where it is full.
pub(crate) fn full_to_take_inject<const WORDS: usize, C: Agent<WORDS>>(
    children: &[C],
    k: ChildNo,
    item: ItemId,
) -> Option<QueueName>
    requires { HaveItem item (map C.value children.now) }
    ensures { result ≡ child_full_for InjectTx item (child_at k (map C.value children.now)) }
{
    if (k.0 as usize) < children.len() {
        child(children, k, item).full_for(TxKind::InjectTx, item)
    } else {
        None
    }
}

/// Whether child `k`, if it is there, has a place for the item where it comes to it as a reader.
pub(crate) fn reader_has_place<const WORDS: usize, C: Agent<WORDS>>(
    children: &[C],
    k: ChildNo,
    item: ItemId,
) -> bool
    requires { HaveItem item (map C.value children.now) }
    ensures { result ≡ reader_has_place item (child_at k (map C.value children.now)) }
{
    if (k.0 as usize) < children.len() {
        child(children, k, item).reader_has_place(item)
    } else {
        true
    }
}

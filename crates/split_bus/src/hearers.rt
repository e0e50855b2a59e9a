//! Whether all that are to be told something have room for it.

ghost use Rattle.std.specs.Prelude.{◌≡◌, ◌<◌, ◌≤◌, length, map};
ghost use Rattle.split_bus.specs.TreeModel.State.Lists.{first_given};
ghost use Rattle.item_states.specs.Parts.{node_items};
ghost use Rattle.split_bus.specs.Children.{full_to_hear};
ghost use Rattle.split_bus.specs.Outcomes.{HaveItem};

use crate::of_ddm_types::{ChildNo, ItemId, QueueName, TxKind};
use crate::readers::Readers;
use item_states::Agent;

/// The children that a turn tells something, and what.
#[derive(Clone, Copy)]
pub(crate) enum Hearers {
    /// Each is to lose the item.
    LoseAll,
    /// Each but this child is to lose the item.
    LoseOthers(ChildNo),
    /// The readers take data.
    TakeData(Readers),
}

fn full_to_hear<const WORDS: usize, C: Agent<WORDS>>(
    child: &C,
    hearers: &Hearers,
    item: ItemId,
    i: usize,
) -> Option<QueueName>
    requires few { i < 16 }
    requires has { item < node_items (C.value child.now) }
    ensures { result ≡ full_to_hear hearers.now item i (C.value child.now) }
{
    match hearers {
        Hearers::LoseAll => child.full_for(TxKind::EraseTx, item),
        Hearers::LoseOthers(c) => {
            if i == c.0 as usize {
                None
            } else {
                child.full_for(TxKind::EraseTx, item)
            }
        }
        Hearers::TakeData(readers) => {
            if readers.has(i) {
                child.full_for(TxKind::DataTx, item)
            } else {
                None
            }
        }
    }
}

/// The first list that a child needs to hear it and that is full.
pub(crate) fn find_full<const WORDS: usize, C: Agent<WORDS>>(
    children: &[C],
    hearers: &Hearers,
    item: ItemId,
) -> Option<QueueName>
    requires few { length children.now ≤ 16 }
    requires have { HaveItem item (map C.value children.now) }
    ensures { result ≡ first_given (full_to_hear hearers.now item) 0 (map C.value children.now) }
{
    for i in 0..children.len() {
        let full = full_to_hear(&children[i], hearers, item, i);
        if full.is_some() {
            return full;
        }
    }
    None
}

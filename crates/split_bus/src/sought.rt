//! The child that is sought.

ghost use Rattle.std.specs.Prelude.{◌≡◌, ◌<◌, ◌≤◌, IfSome, length, map};
ghost use Rattle.split_bus.specs.TreeModel.State.Lists.{find_from};
ghost use Rattle.split_bus.specs.TreeModel.State.States.{is_exclusive, is_held, is_shared};
ghost use Rattle.split_bus.specs.TreeModel.State.Child.{child_holds};
ghost use Rattle.item_states.specs.Parts.{node_items};
ghost use Rattle.split_bus.specs.Children.{is_sought};
ghost use Rattle.split_bus.specs.Outcomes.{HaveItem};

use crate::of_ddm_types::{ChildNo, Hold, ItemId};
use item_states::Agent;

/// A child that a turn seeks.
#[derive(Clone, Copy)]
pub(crate) enum Sought {
    Holder,
    /// Another holder than this child.
    OtherHolder(ChildNo),
    WaiterWithRoom,
    /// Another than this child that waits for the item and has room.
    OtherWaiterWithRoom(ChildNo),
    Room,
    /// One with room behind this child.
    RoomBehind(ChildNo),
    /// One with room before this child.
    RoomBefore(ChildNo),
}

pub(crate) fn is_held(hold: Hold) -> bool
    ensures { result ≡ is_held hold }
{
    match hold {
        Hold::Invalid => false,
        Hold::Shared | Hold::Exclusive => true,
    }
}

pub(crate) fn is_exclusive(hold: Hold) -> bool
    ensures { result ≡ is_exclusive hold }
{
    match hold {
        Hold::Invalid | Hold::Shared => false,
        Hold::Exclusive => true,
    }
}

pub(crate) fn is_shared(hold: Hold) -> bool
    ensures { result ≡ is_shared hold }
{
    match hold {
        Hold::Invalid | Hold::Exclusive => false,
        Hold::Shared => true,
    }
}

fn holds<const WORDS: usize, C: Agent<WORDS>>(child: &C, item: ItemId) -> bool
    requires { item < node_items (C.value child.now) }
    ensures { result ≡ child_holds item (C.value child.now) }
{
    is_held(child.hold(item))
}

fn is_sought<const WORDS: usize, C: Agent<WORDS>>(
    child: &C,
    sought: &Sought,
    item: ItemId,
    i: usize,
) -> bool
    requires { item < node_items (C.value child.now) }
    ensures { result ≡ is_sought sought.now item i (C.value child.now) }
{
    match sought {
        Sought::Holder => holds(child, item),
        Sought::OtherHolder(c) => i != c.0 as usize && holds(child, item),
        Sought::WaiterWithRoom => child.waits(item) && child.room(item),
        Sought::OtherWaiterWithRoom(c) => {
            i != c.0 as usize && child.waits(item) && child.room(item)
        }
        Sought::Room => child.room(item),
        Sought::RoomBehind(c) => i > c.0 as usize && child.room(item),
        Sought::RoomBefore(c) => i < c.0 as usize && child.room(item),
    }
}

/// The lowest child that is sought.
pub(crate) fn find<const WORDS: usize, C: Agent<WORDS>>(
    children: &[C],
    sought: &Sought,
    item: ItemId,
) -> Option<ChildNo>
    requires few { length children.now ≤ 16 }
    requires have { HaveItem item (map C.value children.now) }
    ensures value { result ≡ find_from (is_sought sought.now item) 0 (map C.value children.now) }
    ensures within { IfSome result (λ k. k < length children.now) }
{
    for i in 0..children.len() {
        if is_sought(&children[i], sought, item, i) {
            return Some(ChildNo(i as u32));
        }
    }
    None
}

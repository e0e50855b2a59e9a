//! What a turn does to the parent of its bus.

ghost use Rattle.std.specs.Prelude.{◌≡◌, ◌+◌, ◌<◌, ◌^◌, None, Some, length, if◌then◌else◌};
ghost use Rattle.split_bus.specs.TreeModel.State.Lists.{rest_of};
ghost use Rattle.split_bus.specs.TreeModel.State.Directory.{front_taken, is_parked, is_top, stamp_of};

use crate::of_ddm_types::{ItemId, Stamp};
use item_states::Parent;

/// Whether no bus is above the parent's.
pub(crate) fn is_top<const WORDS: usize, P: Parent<WORDS>>(parent: &P) -> bool
    ensures { result ≡ is_top (P.state parent.now) }
{
    parent.bus().0 == 0
}

/// Whether a copy of the item is parked.
pub(crate) fn is_parked<const WORDS: usize, P: Parent<WORDS>>(parent: &P, item: ItemId) -> bool
    requires words_fit { WORDS < 2 ^ 32 }
    requires in_range { item < length (P.state parent.now).items }
    ensures { result ≡ is_parked item (P.state parent.now) }
{
    parent.parked(item).is_some()
}

/// The stamp that the parent's bus takes over with an entry of this stamp.
fn epoch_of<const WORDS: usize, P: Parent<WORDS>>(parent: &P, stamp: Stamp) -> Option<Stamp>
    ensures { result ≡ (if is_top (P.state parent.now) then None else Some stamp) }
{
    if is_top(parent) { None } else { Some(stamp) }
}

/// Takes the first entry of the down list, which has this stamp. Gives the bus's new stamp.
pub(crate) fn take_front<const WORDS: usize, P: Parent<WORDS>>(
    parent: &mut P,
    stamp: Stamp,
) -> Stamp
    requires { (P.state parent.old).count + 1 < 2 ^ 32 }
    ensures after { let p = P.state parent.old in P.state parent.new ≡ front_taken stamp (rest_of p.down) p }
    ensures stamp { result ≡ stamp_of (P.state parent.new) }
{
    let epoch = epoch_of(parent, stamp);
    parent.pop_down();
    parent.advance(epoch)
}

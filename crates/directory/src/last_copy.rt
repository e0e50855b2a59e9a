//! The last copy of an item on its way down.

ghost use Rattle.std.specs.Prelude.{◌≡◌, ◌<◌, ◌&&◌, Some, length, nat_eq, slice_get, if◌then◌else◌};
ghost use Rattle.directory.specs.TreeModel.State.Kinds.{brings_copy};
ghost use Rattle.directory.specs.TreeModel.State.Values.{DownValue};

use crate::of_ddm_types::{ItemId, Words};
use crate::of_item_states::DownEntry;
use crate::of_state_reading::brings_copy;
use tx_queue::Queue;

/// The copy at this place of a down list, where it is one of the item; else what was found before.
pub(crate) fn later_copy<const WORDS: usize>(
    down: &Queue<DownEntry<WORDS>>,
    item: ItemId,
    place: u32,
    before: Option<(u32, Words<WORDS>)>,
) -> Option<(u32, Words<WORDS>)>
    requires { place < length down.now.list }
    ensures { (e : DownValue) → slice_get down.now.list place ≡ Some e →
        result ≡ (if nat_eq item e.item && brings_copy e.kind then Some (place, e.words) else before.entry) }
{
    match down.get(place) {
        Some(entry) if item == entry.item && brings_copy(entry.kind) => Some((place, entry.words)),
        _ => before,
    }
}

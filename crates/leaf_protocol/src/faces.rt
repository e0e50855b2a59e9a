//! What the rules of a bus ask of a leaf.

ghost use Rattle.std.specs.Prelude.{◌≡◌, ◌<◌, length, option_map};
ghost use Rattle.leaf_protocol.specs.DdmTypes.declared.answers.TxKind.TheVariants.{EraseTx};
ghost use Rattle.leaf_protocol.specs.TreeModel.State.States.{is_reading, is_upgrading};
ghost use Rattle.leaf_protocol.specs.TreeModel.State.Leaf.{slot_has, words_of_item};
ghost use Rattle.leaf_protocol.specs.TreeRules.Bus.Faces.{in_state, leaf_face};
ghost use Rattle.leaf_protocol.specs.Leaf.{request_value};

use crate::asking::asks_to_read;
use crate::leaf::Leaf;
use crate::of_ddm_types::{ItemId, LeafState, TxKind};
use crate::of_item_states::leaf_hold;
use bus_judging::ChildFace;

/// Whether an entry waits for data.
fn waits_for_data(state: Option<LeafState>) -> bool
    ensures { result ≡ in_state is_reading state }
{
    match state {
        Some(LeafState::Reading | LeafState::ReadingWaiting) => true,
        Some(LeafState::Shared | LeafState::Exclusive | LeafState::Waiting) | None => false,
    }
}

/// Whether an entry waits to be exclusive.
fn waits_to_be_exclusive(state: Option<LeafState>) -> bool
    ensures { result ≡ in_state is_upgrading state }
{
    match state {
        Some(LeafState::Waiting) => true,
        Some(LeafState::Shared | LeafState::Exclusive) => false,
        Some(LeafState::Reading | LeafState::ReadingWaiting) | None => false,
    }
}

/// Whether the slot asks to erase the item elsewhere.
fn asks_to_erase(item: ItemId, slot: Option<(TxKind, ItemId)>) -> bool
    ensures { result ≡ slot_has EraseTx item (option_map request_value slot) }
{
    match slot {
        Some((TxKind::EraseTx, asked)) => asked.0 == item.0,
        _ => false,
    }
}

impl<const WAYS: usize, const WORDS: usize> Leaf<WAYS, WORDS> {
    /// How many replies of the item it has.
    fn reply_count(&self, item: ItemId) -> u32
        ensures { result ≡ length (words_of_item item self.now.replies) }
    {
        self.replies.naming(item)
    }

    /// What its bus sees of it, of this item.
    pub fn face(&self, item: ItemId) -> ChildFace
        requires { item < length self.now.ways }
        ensures { result ≡ leaf_face item self.now }
    {
        let state = self.entries.state(item);
        let reads = waits_for_data(state) & !asks_to_read(item, self.slot);
        let erases = waits_to_be_exclusive(state) & !asks_to_erase(item, self.slot);
        ChildFace {
            hold: leaf_hold(state),
            reads,
            erases,
            replies: self.reply_count(item),
            answers: false,
        }
    }
}

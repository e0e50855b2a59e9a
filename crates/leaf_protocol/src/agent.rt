//! A leaf as a child of its bus.

ghost use Rattle.std.specs.Prelude.{◌≡◌, ◌<◌, None, true};
ghost use Rattle.leaf_protocol.specs.DdmTypes.declared.answers.TxKind.TheVariants.{DataTx, InjectTx};
ghost use Rattle.leaf_protocol.specs.TreeModel.State.Values.{leaf_node};
ghost use Rattle.leaf_protocol.specs.TreeModel.State.Child.{child_full_for, child_take_data, child_take_inject, reader_has_place};
ghost use Rattle.leaf_protocol.specs.ItemStates.Parts.{node_items};

use crate::asking::{
    asked_when_lost, asked_with_data, asks_to_read, leaf_exclusive, leaf_inject, slot_asked,
    slot_struck,
};
use crate::leaf::Leaf;
use crate::of_ddm_types::{BusNo, Hold, ItemId, PendingWhy, QueueName, Stamp, TxKind, Words};
use crate::of_item_states::{Agent, leaf_answer, leaf_data, leaf_hold, leaf_lose};

impl<const WAYS: usize, const WORDS: usize> Agent<WORDS> for Leaf<WAYS, WORDS> {
    ghost value = { leaf_node };

    fn hold(&self, item: ItemId) -> Hold {
        leaf_hold(self.entries.state(item))
    }

    fn waits(&self, item: ItemId) -> bool {
        asks_to_read(item, self.slot)
    }

    fn room(&self, item: ItemId) -> bool {
        self.waits(item)
            || (self.entries.state(item).is_none() && self.entries.free_way(item).is_some())
    }

    fn reader_has_place(&self, _item: ItemId) -> bool {
        true
    }

    fn full_for(&self, kind: TxKind, _item: ItemId) -> Option<QueueName> {
        match kind {
            TxKind::ReadTx if self.replies.full() => Some(QueueName::LeafReplies(self.number)),
            _ => None,
        }
    }

    fn first_request(&self) -> Option<(TxKind, ItemId)> {
        self.slot
    }

    fn first_reply(&self) -> Option<(ItemId, Words<WORDS>)> {
        self.replies.first().copied()
    }

    fn leaving(&self, choice: u8) -> Option<ItemId> {
        self.entries.leaving(choice)
    }

    fn pending_below(&self, _item: ItemId) -> Option<(BusNo, PendingWhy)> {
        None
    }

    fn take_request(&mut self) {
        self.slot = None;
    }

    fn take_reply(&mut self) {
        self.replies.pop();
    }

    fn lose(&mut self, item: ItemId, _stamp: Stamp) {
        self.reservation.clear_on(item);
        let Some((state, place)) = self.entries.seek(item) else {
            return;
        };
        let Some(next) = leaf_lose(state) else {
            self.entries.end_at(item, place);
            return;
        };
        let zeros = Words { w: [0; WORDS] };
        self.entries.set_at(item, place, next, zeros);
        self.slot = slot_asked(asked_when_lost(state), item, self.slot);
    }

    fn take_data(&mut self, item: ItemId, words: Words<WORDS>, _stamp: Stamp)
        requires in_range { item < node_items (leaf_node self.old) }
        requires room { child_full_for DataTx item (leaf_node self.old) ≡ None }
        ensures { leaf_node self.new ≡ child_take_data item words.entry _stamp (leaf_node self.old) }
    {
        let Some((state, place)) = self.entries.seek(item) else {
            return;
        };
        let Some(next) = leaf_data(state) else {
            return;
        };
        self.entries.set_at(item, place, next, words);
        self.slot = slot_asked(asked_with_data(state), item, self.slot);
    }

    fn take_exclusive(&mut self, item: ItemId, _stamp: Stamp) {
        let Some((state, place)) = self.entries.seek(item) else {
            return;
        };
        let Some(next) = leaf_exclusive(state) else {
            return;
        };
        self.entries.set_state_at(item, place, next);
    }

    fn answer(&mut self, item: ItemId, _stamp: Stamp) {
        let Some((state, place)) = self.entries.seek(item) else {
            return;
        };
        let Some(next) = leaf_answer(state) else {
            return;
        };
        let words = self.entries.words_at(item, place);
        let _ = self.replies.push((item, words));
        self.entries.set_state_at(item, place, next);
    }

    fn take_inject(&mut self, item: ItemId, words: Words<WORDS>, _stamp: Stamp)
        requires in_range { item < node_items (leaf_node self.old) }
        requires room { child_full_for InjectTx item (leaf_node self.old) ≡ None }
        requires place { reader_has_place item (leaf_node self.old) ≡ true }
        ensures { leaf_node self.new ≡ child_take_inject item words.entry _stamp (leaf_node self.old) }
    {
        self.slot = slot_struck(item, self.slot);
        let Some((state, place)) = self.entries.seek(item) else {
            let _ = self.entries.place(item, words);
            return;
        };
        let Some(next) = leaf_inject(state) else {
            return;
        };
        self.entries.set_at(item, place, next, words);
    }

    fn give_up(&mut self, item: ItemId) -> Words<WORDS> {
        let words = self.entries.buffered(item).unwrap();
        self.entries.end(item);
        self.reservation.clear_on(item);
        words
    }
}

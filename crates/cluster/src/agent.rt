//! A cluster as a child of its bus.

ghost use Rattle.std.specs.Prelude.{◌≡◌, ◌<◌, None, true, map};
ghost use Rattle.cluster.specs.DdmTypes.declared.answers.TxKind.TheVariants.{DataTx, InjectTx};
ghost use Rattle.cluster.specs.TreeModel.State.Values.{dir_node, leaf_node, nodes};
ghost use Rattle.cluster.specs.TreeModel.State.Child.{child_full_for, child_take_data, child_take_inject, reader_has_place};
ghost use Rattle.cluster.specs.ItemStates.Parts.{node_items};

use crate::cluster::Cluster;
use crate::of_ddm_types::{BusNo, Hold, ItemId, PendingWhy, QueueName, Stamp, TxKind, Words};
use crate::of_item_states::Agent;

impl<const WAYS: usize, const WORDS: usize> Agent<WORDS> for Cluster<WAYS, WORDS> {
    ghost value = { λ s. dir_node s.dir.state (nodes (map leaf_node s.dir.children.items)) };

    fn hold(&self, item: ItemId) -> Hold {
        self.dir.hold(item)
    }

    fn waits(&self, item: ItemId) -> bool {
        self.dir.waits(item)
    }

    fn room(&self, item: ItemId) -> bool {
        self.dir.room(item)
    }

    fn reader_has_place(&self, item: ItemId) -> bool {
        self.dir.reader_has_place(item)
    }

    fn full_for(&self, kind: TxKind, item: ItemId) -> Option<QueueName> {
        self.dir.full_for(kind, item)
    }

    fn first_request(&self) -> Option<(TxKind, ItemId)> {
        self.dir.first_request()
    }

    fn first_reply(&self) -> Option<(ItemId, Words<WORDS>)> {
        self.dir.first_reply()
    }

    fn leaving(&self, choice: u8) -> Option<ItemId> {
        self.dir.leaving(choice)
    }

    fn pending_below(&self, item: ItemId) -> Option<(BusNo, PendingWhy)> {
        self.dir.pending_below(item)
    }

    fn take_request(&mut self) {
        self.dir.take_request();
    }

    fn take_reply(&mut self) {
        self.dir.take_reply();
    }

    fn lose(&mut self, item: ItemId, stamp: Stamp) {
        self.dir.lose(item, stamp);
    }

    fn take_data(&mut self, item: ItemId, words: Words<WORDS>, stamp: Stamp)
        requires in_range { item < node_items (dir_node self.old.dir.state (nodes (map leaf_node self.old.dir.children.items))) }
        requires room { child_full_for DataTx item
            (dir_node self.old.dir.state (nodes (map leaf_node self.old.dir.children.items)))
            ≡ None }
        ensures { dir_node self.new.dir.state (nodes (map leaf_node self.new.dir.children.items))
            ≡ child_take_data item words.entry stamp
            (dir_node self.old.dir.state (nodes (map leaf_node self.old.dir.children.items))) }
    {
        self.dir.take_data(item, words, stamp);
    }

    fn take_exclusive(&mut self, item: ItemId, stamp: Stamp) {
        self.dir.take_exclusive(item, stamp);
    }

    fn answer(&mut self, item: ItemId, stamp: Stamp) {
        self.dir.answer(item, stamp);
    }

    fn take_inject(&mut self, item: ItemId, words: Words<WORDS>, stamp: Stamp)
        requires in_range { item < node_items (dir_node self.old.dir.state (nodes (map leaf_node self.old.dir.children.items))) }
        requires room { child_full_for InjectTx item
            (dir_node self.old.dir.state (nodes (map leaf_node self.old.dir.children.items)))
            ≡ None }
        requires place { reader_has_place item (dir_node self.old.dir.state (nodes (map leaf_node self.old.dir.children.items))) ≡ true }
        ensures { dir_node self.new.dir.state (nodes (map leaf_node self.new.dir.children.items))
            ≡ child_take_inject item words.entry stamp
            (dir_node self.old.dir.state (nodes (map leaf_node self.old.dir.children.items))) }
    {
        self.dir.take_inject(item, words, stamp);
    }

    fn give_up(&mut self, item: ItemId) -> Words<WORDS> {
        self.dir.give_up(item)
    }
}

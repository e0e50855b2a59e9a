//! What a bus sees of a child, and tells it.

ghost use Rattle.std.specs.Prelude.{◌≡◌, ℕ, ◌<◌, true, Option, Some, None, option_map, IfSome};
ghost use Rattle.item_states.specs.DdmTypes.declared.answers.TxKind.TheVariants.{ReadTx, DataTx, EraseTx, ExclusiveTx, InjectTx};
ghost use Rattle.tree_model.specs.State.Values.{Node};
ghost use Rattle.tree_model.specs.State.Child.{child_hold, child_waits, child_room, reader_has_place, child_full_for};
ghost use Rattle.tree_model.specs.State.Child.{child_request, child_reply, child_leaving, pending_below, child_lose};
ghost use Rattle.tree_model.specs.State.Child.{child_take_data, child_take_exclusive, child_answer};
ghost use Rattle.tree_model.specs.State.Child.{child_take_inject, child_request_taken, child_reply_taken};
ghost use Rattle.tree_model.specs.State.Child.{child_given, child_give_up};
ghost use Rattle.item_states.specs.Parts.{node_items, request_pair, copy_pair, has_given};

use crate::of_ddm_types::{BusNo, Hold, ItemId, PendingWhy, QueueName, Stamp, TxKind, Words};

/// A child's face to its bus, by the value of all that hangs there. A stamp is that of the bus when it tells the child
/// something; nothing deeper than the child changes.
pub trait Agent<const WORDS: usize> {
    ghost value: { Self → Node };

    fn hold(&self, item: ItemId) -> Hold
        requires { item < node_items (value self.now) }
        ensures { result ≡ child_hold item (value self.now) };

    /// Whether its read of the item isn't granted yet.
    fn waits(&self, item: ItemId) -> bool
        requires { item < node_items (value self.now) }
        ensures { result ≡ child_waits item (value self.now) };

    /// Whether it can take the item.
    fn room(&self, item: ItemId) -> bool
        requires { item < node_items (value self.now) }
        ensures { result ≡ child_room item (value self.now) };

    /// Whether it has a place for the item where it comes to it as a reader.
    fn reader_has_place(&self, item: ItemId) -> bool
        requires { item < node_items (value self.now) }
        ensures { result ≡ reader_has_place item (value self.now) };

    /// The list that must have a place before it is told this, where that list is full.
    fn full_for(&self, kind: TxKind, item: ItemId) -> Option<QueueName>
        requires { item < node_items (value self.now) }
        ensures { result ≡ child_full_for kind item (value self.now) };

    /// The request that no bus has granted yet; of a directory the first.
    fn first_request(&self) -> Option<(TxKind, ItemId)>
        ensures value { result ≡ option_map request_pair (child_request (value self.now)) }
        ensures in_range { IfSome result (λ r. r.1 < node_items (value self.now)) };

    fn first_reply(&self) -> Option<(ItemId, Words<WORDS>)>
        ensures value { result ≡ option_map copy_pair (child_reply (value self.now)) }
        ensures in_range { IfSome result (λ r. r.0 < node_items (value self.now)) };

    /// The item whose copy leaves at this choice.
    fn leaving(&self, choice: u8) -> Option<ItemId>
        ensures value { result ≡ child_leaving choice (value self.now) }
        ensures in_range { IfSome result (λ x. x < node_items (value self.now)) }
        ensures there { IfSome result (λ x. has_given x (value self.now) ≡ true) };

    /// Why the item is pending on the bus below it, with that bus.
    fn pending_below(&self, item: ItemId) -> Option<(BusNo, PendingWhy)>
        requires { item < node_items (value self.now) }
        ensures { result ≡ pending_below item (value self.now) };

    fn take_request(&mut self)
        ensures { value self.new ≡ child_request_taken (value self.old) };

    fn take_reply(&mut self)
        ensures { value self.new ≡ child_reply_taken (value self.old) };

    fn lose(&mut self, item: ItemId, stamp: Stamp)
        requires in_range { item < node_items (value self.old) }
        requires room { child_full_for EraseTx item (value self.old) ≡ None }
        ensures { value self.new ≡ child_lose item stamp (value self.old) };

    fn take_data(&mut self, item: ItemId, words: Words<WORDS>, stamp: Stamp)
        requires in_range { item < node_items (value self.old) }
        requires room { child_full_for DataTx item (value self.old) ≡ None }
        ensures { value self.new ≡ child_take_data item words.entry stamp (value self.old) };

    fn take_exclusive(&mut self, item: ItemId, stamp: Stamp)
        requires in_range { item < node_items (value self.old) }
        requires room { child_full_for ExclusiveTx item (value self.old) ≡ None }
        ensures { value self.new ≡ child_take_exclusive item stamp (value self.old) };

    fn answer(&mut self, item: ItemId, stamp: Stamp)
        requires in_range { item < node_items (value self.old) }
        requires room { child_full_for ReadTx item (value self.old) ≡ None }
        ensures { value self.new ≡ child_answer item stamp (value self.old) };

    fn take_inject(&mut self, item: ItemId, words: Words<WORDS>, stamp: Stamp)
        requires in_range { item < node_items (value self.old) }
        requires room { child_full_for InjectTx item (value self.old) ≡ None }
        requires place { reader_has_place item (value self.old) ≡ true }
        ensures { value self.new ≡ child_take_inject item words.entry stamp (value self.old) };

    /// Gives away its copy of the item, which is in its buffer or its parking.
    fn give_up(&mut self, item: ItemId) -> Words<WORDS>
        requires in_range { item < node_items (value self.old) }
        requires there { has_given item (value self.old) ≡ true }
        ensures given { result ≡ child_given item (value self.old) }
        ensures after { value self.new ≡ child_give_up item (value self.old) };
}

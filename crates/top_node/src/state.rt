//! The top.

ghost use Rattle.std.specs.Prelude.{◌≡◌, ◌<◌, ◌^◌, ◌++◌, ◌∷◌, [], false, length, option_copied, slice_get, IfOk, if◌then◌else◌};
ghost use Rattle.top_node.specs.TreeModel.State.Values.{DirValue};
ghost use Rattle.top_node.specs.TreeModel.State.Directory.{down_full, in_down, is_parked, parked_place};
ghost use Rattle.top_node.specs.TreeModel.State.Directory.{place_released, pushed_reply, replies_full, with_parked};
ghost use Rattle.top_node.specs.TreeModel.State.Lengths.{dir_lengths};
ghost use Rattle.top_node.specs.TreeModel.Start.Nodes.{new_top, top_sizes};
ghost use Rattle.top_node.specs.ItemStates.Parts.{CanPark};

use crate::of_ddm_types::{
    BusNo, ChildNo, Hold, ItemId, NoMemory, PendingWhy, QueueName, Stamp, TxKind, Words,
};
use crate::of_item_states::{DownEntry, Parent, ParentList};
use crate::of_tree_model::DirLengths;
use crate::of_tx_queue::Queue;
use directory::{ItemTable, pending_by};
use std::alloc::Global;
use std::marker::Model;

/// The top, without the children below it. It sends and parks nothing.
#[derive(Drop)]
pub struct TopState<const WORDS: usize> {
    pub(crate) kept: ItemTable,
    pub(crate) down: Queue<DownEntry<WORDS>>,
    pub(crate) count: u32,
}

impl<const WORDS: usize> Model for TopState<WORDS> {
    ghost use Rattle.std.specs.Prelude.{length};
    ghost use Rattle.top_node.specs.TreeModel.State.Values.{DirValue};
    ghost use Rattle.top_node.specs.TopParts.{top_value, IsTop};

    ghost Value = { DirValue };

    ghost view = { λ t. top_value WORDS t.kept t.down.list t.down.capacity t.count };

    ghost invariant = { λ t. IsTop WORDS (length t.kept) t.down.items };
}

impl<const WORDS: usize> TopState<WORDS> {
    /// The top over so many items, with so many places in its down list.
    pub fn new(alloc: Global, items: u32, down: u32) -> Result<Self, NoMemory>
        requires { WORDS < 2 ^ 32 }
        ensures { IfOk result (λ t. t ≡ new_top (top_sizes down WORDS) items) }
    {
        let kept = ItemTable::new(alloc, items, Hold::Exclusive)?;
        let down = Queue::new(alloc, down, items)?;
        Ok(TopState {
            kept,
            down,
            count: 0,
        })
    }

    /// Becomes a copy of another top with the same sizes, of as many items. It takes no memory.
    pub fn copy_from(&mut self, other: &Self)
        requires sizes { self.old.sizes ≡ other.now.sizes }
        requires items { length self.old.items ≡ length other.now.items }
        ensures { self.new ≡ other.now }
    {
        self.kept.copy_from(&other.kept);
        self.down.copy_from(&other.down);
        self.count = other.count;
    }

    pub fn down_get(&self, place: u32) -> Option<&DownEntry<WORDS>>
        ensures { option_copied result ≡ slice_get self.now.down place }
    {
        self.down.get(place)
    }

    /// How many entries stand in the down list.
    pub fn down_len(&self) -> u32
        ensures { result ≡ length self.now.down }
    {
        self.down.len()
    }

    /// How long its lists are: but for its down list it has none.
    pub fn lengths(&self) -> DirLengths
        ensures { result ≡ dir_lengths self.now }
    {
        DirLengths {
            down: self.down.len(),
            requests: 0,
            replies: 0,
            parking: 0,
        }
    }

    /// How many places its down list has, which are all that it has.
    pub fn capacity(&self) -> u32
        ensures { self.now.sizes ≡ top_sizes result WORDS }
    {
        self.down.capacity()
    }

    /// The place of an item's parked copy: the top parks nothing.
    pub fn parked_at(&self, _item: ItemId) -> Option<u32>
        ensures { result ≡ parked_place _item self.now }
    {
        let _ = &self.count;
        None
    }

    /// Whether an entry of the item stands in the down list.
    fn in_down(&self, item: ItemId) -> bool
        requires { item < length self.now.items }
        ensures { result ≡ in_down item self.now }
    {
        self.down.holds_item(item)
    }
}

// `let _ = &self.count` lets a proof see the fields, and does nothing.
impl<const WORDS: usize> Parent<WORDS> for TopState<WORDS> {
    ghost state = { λ t. t };

    fn bus(&self) -> BusNo {
        let _ = &self.count;
        BusNo(0)
    }

    fn stamp(&self) -> Stamp {
        Stamp::zero().at_level(0, self.count)
    }

    fn hold(&self, item: ItemId) -> Hold {
        self.kept.hold(item)
    }

    fn note(&self, item: ItemId) -> Option<PendingWhy> {
        self.kept.note(item)
    }

    fn joined(&self, item: ItemId) -> u16 {
        self.kept.joined(item)
    }

    fn answering(&self, item: ItemId) -> bool {
        self.kept.answering(item)
    }

    #[tactic(auto, unfolding(crate::specs::Opened::pending))]
    fn pending(&self, item: ItemId) -> Option<PendingWhy> {
        pending_by(
            self.kept.note(item),
            self.kept.answering(item),
            self.in_down(item),
        )
    }

    fn first_down(&self) -> Option<DownEntry<WORDS>> {
        self.down.first().copied()
    }

    #[tactic(auto, unfolding(crate::specs::Opened::words_of_item))]
    fn parked(&self, _item: ItemId) -> Option<Words<WORDS>> {
        let _ = &self.count;
        None
    }

    fn list_full(&self, which: ParentList) -> Option<QueueName> {
        match which {
            ParentList::Down => {
                if self.down.full() {
                    Some(QueueName::Down(BusNo(0)))
                } else {
                    None
                }
            }
            ParentList::Requests => Some(QueueName::Requests(BusNo(0))),
            ParentList::Replies => Some(QueueName::Replies(BusNo(0))),
        }
    }

    fn parking_full(&self) -> bool {
        let _ = &self.count;
        true
    }

    fn keeps_place(&self) -> bool {
        let _ = &self.count;
        false
    }

    fn set_note(&mut self, item: ItemId, note: Option<PendingWhy>) {
        self.kept.set_note(item, note);
    }

    fn join(&mut self, item: ItemId, child: ChildNo) {
        self.kept.join(item, child);
    }

    fn pop_down(&mut self) {
        let _ = self.down.pop();
    }

    fn push_down(&mut self, entry: DownEntry<WORDS>)
        requires in_range { entry.item < length self.old.items }
        requires room { down_full self.old ≡ false }
        ensures { self.new ≡ record self.old { down = self.old.down ++ entry.entry ∷ [] } }
    {
        self.down.put(entry);
    }

    /// The top has no place for a request.
    fn push_request(&mut self, _kind: TxKind, _item: ItemId) {
        let _ = &self.count;
        unreachable!()
    }

    /// The top has no place for a reply.
    fn push_reply(&mut self, item: ItemId, words: Words<WORDS>)
        requires in_range { item < length self.old.items }
        requires room { replies_full self.old ≡ false }
        ensures { self.new ≡ pushed_reply item words.entry self.old }
    {
        let _ = &self.count;
        unreachable!()
    }

    /// The top answers nothing.
    fn end_answering(&mut self, _item: ItemId) {
        let _ = &self.count;
        unreachable!()
    }

    /// The top has no place for a parked copy.
    fn park(&mut self, item: ItemId, words: Words<WORDS>, kept: bool)
        requires in_range { item < length self.old.items }
        requires once { is_parked item self.old ≡ false }
        requires place { CanPark kept self.old }
        ensures { self.new ≡ with_parked item words.entry (if kept then place_released self.old else self.old) }
    {
        let _ = &self.count;
        unreachable!()
    }

    fn unpark(&mut self, _item: ItemId) {
        let _ = &self.count;
    }

    fn release_place(&mut self) {
        let _ = &self.count;
    }

    fn advance(&mut self, epoch: Option<Stamp>) -> Stamp {
        self.count += 1;
        match epoch {
            None => self.stamp(),
            Some(_) => unreachable!(),
        }
    }
}

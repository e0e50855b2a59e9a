//! The type of a leaf.

ghost use Rattle.std.specs.Prelude.{◌≡◌, ◌%◌, ◌+◌, ◌*◌, ◌<◌, ◌≤◌, ◌^◌, Some, None, IfOk, IfErr, filter, is_some};
ghost use Rattle.std.specs.Prelude.{length, map, option_map, slice_get};
ghost use Rattle.leaf_protocol.specs.TreeModel.State.Leaf.{free_way, leaf_entry, may_leave_buffer, spot_at, state_at, waiting_item};
ghost use Rattle.leaf_protocol.specs.TreeModel.State.Lengths.{leaf_lengths};
ghost use Rattle.leaf_protocol.specs.TreeModel.Start.Nodes.{leaf_sizes, new_leaf, or_each, placed};
ghost use Rattle.leaf_protocol.specs.Leaf.{state_and_words};

use crate::entries::Entries;
use crate::of_ddm_types::{
    HartNo, ItemId, LeafNo, LeafState, NoMemory, Start, TreeSizes, TxKind, Words,
};
use crate::of_tree_model::{LeafLengths, LeafSpot};
use crate::replies::Replies;
use attraction_mem::SetFull;
use reservations::Reservation;
use rv_hart::Hart;
use std::alloc::Global;
use std::marker::Model;

/// A leaf: a hart with the entries of its memory and buffer.
#[derive(Drop)]
pub struct Leaf<const WAYS: usize, const WORDS: usize> {
    pub(crate) number: LeafNo,
    pub(crate) entries: Entries<WAYS, WORDS>,
    /// A request that no bus has granted yet.
    pub(crate) slot: Option<(TxKind, ItemId)>,
    pub(crate) replies: Replies<WORDS>,
    pub(crate) reservation: Reservation,
    pub(crate) hart: Hart,
}

impl<const WAYS: usize, const WORDS: usize> Model for Leaf<WAYS, WORDS> {
    ghost use Rattle.leaf_protocol.specs.TreeModel.State.Values.{LeafValue};
    ghost use Rattle.leaf_protocol.specs.Leaf.{leaf_of, AreParts};

    ghost Value = { LeafValue };

    ghost view = { λ l. leaf_of WAYS WORDS l.number l.entries l.slot l.replies l.reservation l.hart };

    ghost invariant = { λ l. AreParts WAYS WORDS l.entries l.slot l.replies l.reservation };
}

impl<const WAYS: usize, const WORDS: usize> Leaf<WAYS, WORDS> {
    /// A leaf with no entries, of this many items. No later call takes memory.
    pub fn new(
        alloc: Global,
        leaf: LeafNo,
        items: u32,
        config: &TreeSizes,
        start: Start,
    ) -> Result<Self, NoMemory>
        requires some_sets { 0 < config.now.sets }
        requires few_sets { config.now.sets ≤ 4096 }
        requires some_ways { 0 < WAYS }
        requires few_ways { WAYS ≤ 4 }
        requires words_fit { WORDS < 2 ^ 32 }
        requires number { leaf < start.harts }
        requires harts { start.harts ≤ 64 }
        requires stacks { start.stack_base + start.harts * start.stack_bytes ≤ 4294967280 }
        ensures { IfOk result (λ l. l ≡ new_leaf (leaf_sizes config.now WAYS WORDS) start items leaf) }
    {
        let entries = Entries::new(alloc, items, config.sets, config.buffer)?;
        let replies = Replies::new(alloc, config.replies, items)?;
        Ok(Leaf {
            number: leaf,
            entries,
            slot: None,
            replies,
            reservation: Reservation::new(),
            hart: Hart::new(HartNo(leaf.0), start),
        })
    }

    pub fn number(&self) -> LeafNo
        ensures { result ≡ self.now.number }
    {
        self.number
    }

    pub fn hart(&self) -> &Hart
        ensures { result.now ≡ record { hart = self.now.hart; done = self.now.done } }
    {
        &self.hart
    }

    /// The item whose entry waits for a transaction.
    pub fn waiting(&self) -> Option<ItemId>
        ensures { result ≡ waiting_item self.now.ways self.now.buffer }
    {
        self.entries.waiting()
    }

    /// The state of the item's entry.
    pub fn state(&self, item: ItemId) -> Option<LeafState>
        ensures { result ≡ state_at item self.now }
    {
        self.entries.state(item)
    }

    /// The item's entry: its state, its words, and where it stands.
    pub fn entry(&self, item: ItemId) -> Option<(LeafState, Words<WORDS>, LeafSpot)>
        ensures entry { option_map (λ e. (e.0, e.1)) result ≡ option_map state_and_words (leaf_entry item self.now) }
        ensures spot { option_map (λ e. e.2) result ≡ spot_at item self.now.ways self.now.buffer }
    {
        let state = self.entries.state(item)?;
        let words = self.entries.words(item)?;
        let spot = self.entries.spot(item)?;
        Some((state, words, spot))
    }

    /// The reply with so many before it: its item, and the words of that.
    pub fn reply_get(&self, place: u32) -> Option<(ItemId, Words<WORDS>)>
        ensures { result ≡ option_map (λ c. (c.item, c.words)) (slice_get self.now.replies place) }
    {
        self.replies.get(place).copied()
    }

    /// How long its lists are.
    pub fn lengths(&self) -> LeafLengths
        ensures { result ≡ leaf_lengths self.now }
    {
        LeafLengths {
            replies: self.replies.len(),
            buffer: self.entries.buffer_len(),
        }
    }

    /// How many of its copies may leave.
    pub fn leaving_count(&self) -> u32
        ensures { result ≡ length (filter may_leave_buffer self.now.buffer) }
    {
        self.entries.leaving_count()
    }

    /// Marks the items that stand in its ways, before the run. Those in its buffer aren't marked.
    pub fn mark_held(&self, held: &mut [bool])
        requires { length held.old ≡ length self.now.ways }
        ensures { held.new ≡ or_each held.old (map is_some self.now.ways) }
    {
        self.entries.mark_held(held);
    }

    /// The item comes, Exclusive, into the lowest free way of its set, before the run.
    pub fn start_item(&mut self, item: ItemId, words: Words<WORDS>) -> Result<u32, SetFull>
        requires inside { item < length self.old.ways }
        requires absent { leaf_entry item self.old ≡ None }
        ensures way { IfOk result (λ way. free_way self.old.sizes item self.old.ways ≡ Some way) }
        ensures full { IfErr result (λ e. (free_way self.old.sizes item self.old.ways ≡ None) × (e.0 ≡ item % self.old.sizes.sets)) }
        ensures after { self.new ≡ placed item words.entry self.old }
    {
        self.entries.place(item, words)
    }
}

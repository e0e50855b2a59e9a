//! The entries of a leaf, in ways and in the buffer.

ghost use Rattle.std.specs.Prelude.{◌≡◌, ◌++◌, ◌∷◌, ◌%◌, ◌<◌, ◌≤◌, ◌^◌, [], true, false, Option, Some, None, IfOk};
ghost use Rattle.std.specs.Prelude.{IfErr, IfSome, IsSome, is_some, filter, length, map, nat_le, option_map};
ghost use Rattle.std.specs.Prelude.{replicate, unwrap_or};
ghost use Rattle.leaf_protocol.specs.DdmTypes.declared.sizes.LeafState.TheVariants.{Exclusive};
ghost use Rattle.leaf_protocol.specs.TreeModel.State.States.{is_reading, is_waiting};
ghost use Rattle.leaf_protocol.specs.TreeModel.State.Leaf.{LeafEntry, blank, becomes, ends, enters, enters_free};
ghost use Rattle.leaf_protocol.specs.TreeModel.State.Leaf.{entry_at, entry_state, entry_words, item_in_way};
ghost use Rattle.leaf_protocol.specs.TreeModel.State.Leaf.{leaf_leaving, may_leave_buffer, spot_at, waiting_item};
ghost use Rattle.leaf_protocol.specs.TreeModel.State.Leaf.{words_in, buffered};
ghost use Rattle.leaf_protocol.specs.TreeModel.State.Child.{buffer_words};
ghost use Rattle.leaf_protocol.specs.TreeModel.Start.Nodes.{or_each};
ghost use Rattle.leaf_protocol.specs.Entries.{cleared, cleared_if, lowest_way, may_be, standing_place, waits_now};
ghost use Rattle.leaf_protocol.specs.Entries.{waiting_after, way_to_take, with_fate, with_mark};

use crate::of_ddm_types::{ItemId, LeafState, NoMemory, Words};
use crate::of_tree_model::LeafSpot;
use attraction_mem::{AttractionMem, SetFull};
use replacement::Buffer;
use std::alloc::Global;
use std::marker::Model;

/// The entries of a leaf: those in the ways of its memory, those in its buffer, and the item whose entry waits.
#[derive(Drop)]
pub(crate) struct Entries<const WAYS: usize, const WORDS: usize> {
    /// How many items there are.
    items: u32,
    pub(crate) memory: AttractionMem<WAYS, WORDS>,
    pub(crate) buffer: Buffer<WORDS>,
    waiting: Option<ItemId>,
}

impl<const WAYS: usize, const WORDS: usize> Model for Entries<WAYS, WORDS> {
    ghost use Rattle.leaf_protocol.specs.Entries.{AreEntries, EntriesValue, ways_of};

    ghost Value = { EntriesValue };

    ghost view = { λ e. record {
      sets = e.memory.sets;
      ways = ways_of e.items e.memory;
      buffer = e.buffer.list;
      room = e.buffer.capacity;
    } };

    ghost invariant = { λ e. AreEntries WAYS WORDS e.items e.memory e.buffer.list e.waiting };
}

/// Whether an entry in this state waits for a transaction.
pub(crate) fn waits(state: LeafState) -> bool
    ensures { result ≡ is_waiting state }
{
    match state {
        LeafState::Shared | LeafState::Exclusive => false,
        LeafState::Waiting | LeafState::Reading | LeafState::ReadingWaiting => true,
    }
}

/// The words of an entry in this state: 0 where it waits for data.
fn words_in<const WORDS: usize>(state: LeafState, words: Words<WORDS>) -> Words<WORDS>
    ensures { result ≡ words_in state WORDS words.entry }
{
    match state {
        LeafState::Shared | LeafState::Exclusive | LeafState::Waiting => words,
        LeafState::Reading | LeafState::ReadingWaiting => Words { w: [0; WORDS] },
    }
}

/// The item that waits, where the entry of this item waits from now on or doesn't.
fn waiting_after(item: ItemId, waits: bool, waiting: Option<ItemId>) -> Option<ItemId>
    ensures { result ≡ waiting_after item waits waiting }
{
    if waits {
        return Some(item);
    }
    match waiting {
        Some(other) if other.0 == item.0 => None,
        _ => waiting,
    }
}

/// Marks the item of a tag.
fn mark_tag(held: &mut [bool], tag: Option<(ItemId, LeafState)>)
    ensures { held.new ≡ with_mark tag held.old }
{
    if let Some((item, _)) = tag {
        if (item.0 as usize) < held.len() {
            held[item.0 as usize] = true;
        }
    }
}

impl<const WAYS: usize, const WORDS: usize> Entries<WAYS, WORDS> {
    /// No entry, of this many items. No later call takes memory.
    pub fn new(alloc: Global, items: u32, sets: u32, room: u32) -> Result<Self, NoMemory>
        requires some_sets { 0 < sets }
        requires few_sets { sets ≤ 4096 }
        requires some_ways { 0 < WAYS }
        requires few_ways { WAYS ≤ 4 }
        requires words_fit { WORDS < 2 ^ 32 }
        ensures { IfOk result (λ e. e ≡ record { sets = sets; ways = replicate items None; buffer = []; room = room }) }
    {
        let memory = AttractionMem::new(alloc, sets)?;
        let buffer = Buffer::new(alloc, room)?;
        Ok(Entries {
            items,
            memory,
            buffer,
            waiting: None,
        })
    }

    /// Becomes a copy of other entries, of as many items, with as many sets and places. It takes no memory.
    pub fn copy_from(&mut self, other: &Self)
        requires sets { self.old.sets ≡ other.now.sets }
        requires room { self.old.room ≡ other.now.room }
        ensures { self.new ≡ other.now }
    {
        self.items = other.items;
        self.memory.copy_from(&other.memory);
        self.buffer.copy_from(&other.buffer);
        self.waiting = other.waiting;
    }

    /// All entries end.
    pub fn clear(&mut self)
        ensures { self.new ≡ record self.old { ways = replicate (length self.old.ways) None; buffer = [] } }
    {
        self.memory.clear();
        self.buffer.clear();
        self.waiting = None;
    }

    /// How many items there are.
    pub fn items(&self) -> u32
        ensures { result ≡ length self.now.ways }
    {
        self.items
    }

    /// How many entries there are in the buffer.
    pub fn buffer_len(&self) -> u32
        ensures { result ≡ length self.now.buffer }
    {
        self.buffer.len()
    }

    /// How many entries of the buffer may leave.
    pub fn leaving_count(&self) -> u32
        ensures { result ≡ length (filter may_leave_buffer self.now.buffer) }
    {
        self.buffer.leaving()
    }

    /// How many entries there may be in the buffer.
    pub fn room(&self) -> u32
        ensures { result ≡ self.now.room }
    {
        self.buffer.capacity()
    }

    /// The state of the item's entry.
    #[inline(always)]
    pub fn state(&self, item: ItemId) -> Option<LeafState>
        ensures { result ≡ option_map entry_state (entry_at item self.now.ways self.now.buffer) }
    {
        let (state, _) = self.seek(item)?;
        Some(state)
    }

    /// The words of the item's entry.
    #[inline(always)]
    pub fn words(&self, item: ItemId) -> Option<Words<WORDS>>
        ensures { result ≡ option_map (λ e. e.words) (entry_at item self.now.ways self.now.buffer) }
    {
        match self.memory.words(item) {
            Some(words) => Some(words),
            None => self.buffer.words(item),
        }
    }

    /// The state of the item's entry, and its place in the memory if it stands there: by that it is changed without a second search. An
    /// entry with no such place is in the buffer.
    #[inline(always)]
    pub fn seek(&self, item: ItemId) -> Option<(LeafState, Option<usize>)>
        ensures state { option_map (λ found. found.0) result ≡ option_map entry_state (entry_at item self.now.ways self.now.buffer) }
        ensures place { IfSome result (λ found. found.1 ≡ standing_place self.now.sets WAYS item self.now.ways) }
    {
        match self.memory.seek(item) {
            Some((place, state)) => Some((state, Some(place))),
            None => match self.buffer.find(item) {
                Some((_, state)) => Some((state, None)),
                None => None,
            },
        }
    }

    /// The words of the item's entry, of which this is the place.
    #[inline(always)]
    pub fn words_at(&self, item: ItemId, place: Option<usize>) -> Words<WORDS>
        requires there { IsSome (entry_at item self.now.ways self.now.buffer) }
        requires place { place ≡ standing_place self.now.sets WAYS item self.now.ways }
        ensures { Some result ≡ option_map (λ e. e.words) (entry_at item self.now.ways self.now.buffer) }
    {
        match place {
            Some(place) => self.memory.words_at(item, place),
            None => self.buffer.words(item).unwrap(),
        }
    }

    /// Where the item's entry stands.
    pub fn spot(&self, item: ItemId) -> Option<LeafSpot>
        ensures { result ≡ spot_at item self.now.ways self.now.buffer }
    {
        match self.memory.find(item) {
            Some((way, _)) => Some(LeafSpot::Way(way)),
            None => match self.buffer.find(item) {
                Some((place, _)) => Some(LeafSpot::Buffer(place)),
                None => None,
            },
        }
    }

    /// Marks the items that stand in the ways. Each tag is looked at once: the items are many more.
    pub fn mark_held(&self, held: &mut [bool])
        requires { length held.old ≡ length self.now.ways }
        ensures { held.new ≡ or_each held.old (map is_some self.now.ways) }
    {
        let tags = self.memory.tags();
        for tag in tags {
            mark_tag(held, *tag);
        }
    }

    /// The item whose entry waits for a transaction.
    pub fn waiting(&self) -> Option<ItemId>
        ensures { result ≡ waiting_item self.now.ways self.now.buffer }
    {
        self.waiting
    }

    /// The lowest free way of the item's set.
    pub fn free_way(&self, item: ItemId) -> Option<u32>
        ensures way { result ≡ lowest_way self.now.sets WAYS item self.now.ways }
        ensures exists { IfSome result (λ way. way < WAYS) }
    {
        self.memory.free_way(item)
    }

    /// Whether an entry stands in that way of the item's set.
    pub fn is_taken(&self, item: ItemId, way: u32) -> bool
        requires { way < WAYS }
        ensures { result ≡ is_some (item_in_way self.now.sets item way self.now.ways) }
    {
        self.memory.beside(item, way).is_some()
    }

    /// The words of the item's entry in the buffer.
    pub fn buffered(&self, item: ItemId) -> Option<Words<WORDS>>
        ensures { result ≡ option_map buffer_words (buffered item self.now.buffer) }
    {
        self.buffer.words(item)
    }

    /// The item whose copy leaves the buffer at this choice.
    pub fn leaving(&self, choice: u8) -> Option<ItemId>
        ensures value { result ≡ leaf_leaving choice self.now.buffer }
        ensures inside { IfSome result (λ x. x < length self.now.ways) }
        ensures there { IfSome result (λ x. is_some (buffered x self.now.buffer) ≡ true) }
    {
        self.buffer.ready(choice)
    }

    /// The item's entry, of which this is the place, gets another state and these words.
    #[inline(always)]
    pub fn set_at(
        &mut self,
        item: ItemId,
        place: Option<usize>,
        state: LeafState,
        words: Words<WORDS>,
    )
        requires there { IsSome (entry_at item self.old.ways self.old.buffer) }
        requires place { place ≡ standing_place self.old.sets WAYS item self.old.ways }
        requires alone { may_be state (entry_at item self.old.ways self.old.buffer) (waiting_item self.old.ways self.old.buffer) ≡ true }
        ensures { self.new ≡ with_fate item (becomes state (words_in state WORDS words.entry)) self.old }
    {
        let suiting = words_in(state, words);
        self.waiting = waiting_after(item, waits(state), self.waiting);
        if let Some(place) = place {
            self.memory.change_at(item, place, state, suiting);
            return;
        }
        self.buffer.set_state(item, state);
        self.buffer.set_words(item, suiting);
    }

    /// The item's entry, of which this is the place, gets another state and keeps its words.
    #[inline(always)]
    pub fn set_state_at(&mut self, item: ItemId, place: Option<usize>, state: LeafState)
        requires there { IsSome (entry_at item self.old.ways self.old.buffer) }
        requires place { place ≡ standing_place self.old.sets WAYS item self.old.ways }
        requires alone { may_be state (entry_at item self.old.ways self.old.buffer) (waiting_item self.old.ways self.old.buffer) ≡ true }
        requires keeps { is_reading state ≡ false }
        ensures { self.new
            ≡ with_fate item
            (becomes state (words_in state WORDS (entry_words (entry_at item self.old.ways self.old.buffer))))
            self.old }
    {
        if let Some(place) = place {
            self.waiting = waiting_after(item, waits(state), self.waiting);
            self.memory.set_state_at(item, place, state);
            return;
        }
        let words = self.words_at(item, None);
        self.set_at(item, None, state, words);
    }

    /// The item's entry, of which this is the place, ends.
    #[inline(always)]
    pub fn end_at(&mut self, item: ItemId, place: Option<usize>)
        requires { place ≡ standing_place self.old.sets WAYS item self.old.ways }
        ensures { self.new ≡ with_fate item ends self.old }
    {
        self.waiting = waiting_after(item, false, self.waiting);
        if let Some(place) = place {
            self.memory.remove_at(item, place);
            return;
        }
        self.buffer.remove(item);
    }

    /// The item's entry ends, if it has one.
    pub fn end(&mut self, item: ItemId)
        ensures { self.new ≡ with_fate item ends self.old }
    {
        self.memory.remove(item);
        self.buffer.remove(item);
        self.waiting = waiting_after(item, false, self.waiting);
    }

    /// The item comes, Exclusive, into the lowest free way of its set, if there is one.
    pub fn place(&mut self, item: ItemId, words: Words<WORDS>) -> Result<u32, SetFull>
        requires inside { item < length self.old.ways }
        requires absent { entry_at item self.old.ways self.old.buffer ≡ None }
        ensures way { IfOk result (λ way. lowest_way self.old.sets WAYS item self.old.ways ≡ Some way) }
        ensures full { IfErr result (λ e. (lowest_way self.old.sets WAYS item self.old.ways ≡ None) × (e.0 ≡ item % self.old.sets)) }
        ensures after { self.new
            ≡ with_fate item
            (enters_free Exclusive words.entry (lowest_way self.old.sets WAYS item self.old.ways)) self.old }
    {
        self.memory.place(item, LeafState::Exclusive, words)
    }

    /// A way of the item's set for it: the lowest free one, or else the one that `victim` chooses, whose item moves to the end
    /// of the buffer. None: the buffer has no place.
    pub fn make_way(&mut self, item: ItemId, victim: u8) -> Option<u32>
        requires { entry_at item self.old.ways self.old.buffer ≡ None }
        ensures way { result
            ≡ way_to_take (victim % WAYS) (nat_le self.old.room (length self.old.buffer))
            (lowest_way self.old.sets WAYS item self.old.ways) }
        ensures after { self.new ≡ cleared_if item result self.old }
        ensures exists { IfSome result (λ way. way < WAYS) }
        ensures free { IfSome result (λ way. item_in_way self.new.sets item way self.new.ways ≡ None) }
        ensures absent { entry_at item self.new.ways self.new.buffer ≡ None }
        ensures waiting { waiting_item self.new.ways self.new.buffer ≡ waiting_item self.old.ways self.old.buffer }
    {
        if let Some(way) = self.memory.free_way(item) {
            return Some(way);
        }
        let other = self.memory.victim(item, victim);
        let (place, state) = self.memory.seek(other).unwrap();
        let words = self.memory.words_at(other, place);
        if self.buffer.put(other, state, words).is_err() {
            return None;
        }
        self.memory.remove_at(other, place);
        Some((usize::from(victim) % WAYS) as u32)
    }

    /// An entry of the item comes into a free way of its set.
    pub fn stand(&mut self, item: ItemId, way: u32, state: LeafState, words: Words<WORDS>)
        requires inside { item < length self.old.ways }
        requires exists { way < WAYS }
        requires absent { entry_at item self.old.ways self.old.buffer ≡ None }
        requires free { item_in_way self.old.sets item way self.old.ways ≡ None }
        requires alone { may_be state None (waiting_item self.old.ways self.old.buffer) ≡ true }
        ensures { self.new ≡ with_fate item (enters way state (words_in state WORDS words.entry)) self.old }
    {
        self.memory
            .place_at(item, way, state, words_in(state, words));
        self.waiting = waiting_after(item, waits(state), self.waiting);
    }

    /// An entry of the item comes to the end of the buffer, which has a place.
    pub fn put(&mut self, item: ItemId, state: LeafState, words: Words<WORDS>)
        requires inside { item < length self.old.ways }
        requires room { length self.old.buffer < self.old.room }
        requires absent { entry_at item self.old.ways self.old.buffer ≡ None }
        requires alone { may_be state None (waiting_item self.old.ways self.old.buffer) ≡ true }
        ensures { self.new
            ≡ record self.old {
              buffer = self.old.buffer
                  ++ record {
                    item = item;
                    state = state;
                    words = words_in state WORDS words.entry;
                  } ∷ [];
            } }
    {
        if self
            .buffer
            .put(item, state, words_in(state, words))
            .is_err()
        {
            unreachable!();
        }
        self.waiting = waiting_after(item, waits(state), self.waiting);
    }

    /// An entry of the item that waits for data comes into a free way of its set.
    pub fn enter(&mut self, item: ItemId, way: u32, state: LeafState)
        requires inside { item < length self.old.ways }
        requires exists { way < WAYS }
        requires absent { entry_at item self.old.ways self.old.buffer ≡ None }
        requires free { item_in_way self.old.sets item way self.old.ways ≡ None }
        requires reading { is_reading state ≡ true }
        requires alone { waiting_item self.old.ways self.old.buffer ≡ None }
        ensures { self.new ≡ with_fate item (enters way state (blank WORDS)) self.old }
    {
        self.memory
            .place_at(item, way, state, Words { w: [0; WORDS] });
        self.waiting = Some(item);
    }
}

//! The buffer of a leaf.

ghost use Rattle.std.specs.Prelude.{◌≡◌, ◌<◌, ◌↔◌, ◌^◌, None, true, if◌then◌else◌, ◌++◌, ◌∷◌, [], length, filter};
ghost use Rattle.std.specs.Prelude.{find, map, not, nat_le, position, option_map, slice_get, IfOk, IsErr, IsSome};
ghost use Rattle.std.specs.Prelude.{OnErr, OnOk, is_err};
ghost use Rattle.replacement.specs.TreeModel.State.Leaf.{is_buffered};
ghost use Rattle.replacement.specs.TreeModel.State.Shape.{are_distinct};
ghost use Rattle.replacement.specs.TreeModel.State.Leaf.{buffer_item};
ghost use Rattle.replacement.specs.TreeModel.State.States.{may_leave};
ghost use Rattle.replacement.specs.TreeModel.State.Lists.{chosen};
ghost use Rattle.replacement.specs.Arrived.{with_state, with_words};

use crate::Full;
use crate::arrivals::Arrivals;
use crate::entries::BufferEntry;
use crate::of_ddm_types::{ItemId, LeafState, NoMemory, Words};
use std::alloc::Global;
use std::marker::Model;

/// The entries of a leaf that had to leave their ways, in order of arrival.
#[derive(Drop)]
pub struct Buffer<const WORDS: usize> {
    pub(crate) entries: Arrivals<BufferEntry<WORDS>>,
}

impl<const WORDS: usize> Model for Buffer<WORDS> {
    ghost use Rattle.std.specs.Prelude.{length, map};
    ghost use Rattle.replacement.specs.TreeModel.State.Leaf.{buffer_item};
    ghost use Rattle.replacement.specs.Arrived.{BufferList, IsHeld};

    ghost Value = { BufferList };

    ghost view = { λ b. record { list = b.entries.list; capacity = b.entries.capacity } };

    ghost invariant = { λ b. IsHeld WORDS (map buffer_item b.entries.list) (length b.entries.list) b.entries.capacity };
}

/// 1 for an entry that may leave its leaf, else 0.
fn leaving_one(state: LeafState) -> usize
    ensures { result ≡ (if may_leave state then 1 else 0) }
{
    match state {
        LeafState::Shared | LeafState::Exclusive => 1,
        LeafState::Waiting | LeafState::Reading | LeafState::ReadingWaiting => 0,
    }
}

/// How many entries may leave.
fn count_free<const WORDS: usize>(entries: &Arrivals<BufferEntry<WORDS>>) -> usize
    ensures { result ≡ length (filter (λ e. may_leave e.state) entries.now.list) }
{
    let mut count = 0;
    for index in 0..entries.len() {
        let entry = entries.at(index);
        count += leaving_one(entry.state);
    }
    count
}

/// The item of the entry that may leave and has this many such entries before it.
fn nth_free<const WORDS: usize>(
    entries: &Arrivals<BufferEntry<WORDS>>,
    before: usize,
) -> Option<ItemId>
    ensures { result ≡ option_map (λ e. e.item) (slice_get (filter (λ e. may_leave e.state) entries.now.list) before) }
{
    let mut left = before;
    for index in 0..entries.len() {
        let entry = entries.at(index);
        let free = leaving_one(entry.state);
        if left < free {
            return Some(entry.item);
        }
        left -= free;
    }
    None
}

/// Puts the item's entry in another state.
fn set_state_of<const WORDS: usize>(
    entries: &mut Arrivals<BufferEntry<WORDS>>,
    item: ItemId,
    state: LeafState,
)
    requires { are_distinct (map buffer_item entries.old.list) ≡ true }
    ensures { entries.new ≡ record entries.old { list = map (with_state item state) entries.old.list } }
{
    if let Some(index) = entries.index_of(item) {
        let entry = entries.at(index);
        entries.set(index, entry.in_state(item, state));
    }
}

/// Gives the item's entry other words.
fn set_words_of<const WORDS: usize>(
    entries: &mut Arrivals<BufferEntry<WORDS>>,
    item: ItemId,
    words: &Words<WORDS>,
)
    requires { are_distinct (map buffer_item entries.old.list) ≡ true }
    ensures { entries.new ≡ record entries.old { list = map (with_words item words.now) entries.old.list } }
{
    if let Some(index) = entries.index_of(item) {
        let entry = entries.at(index);
        entries.set(index, entry.with_words(item, words));
    }
}

impl<const WORDS: usize> Buffer<WORDS> {
    /// An empty buffer. No later call takes memory.
    pub fn new(alloc: Global, capacity: u32) -> Result<Self, NoMemory>
        requires { WORDS < 2 ^ 32 }
        ensures { IfOk result (λ b. b ≡ record { list = []; capacity = capacity }) }
    {
        let entries = Arrivals::new(alloc, capacity as usize, BufferEntry::blank())?;
        Ok(Buffer { entries })
    }

    /// Becomes a copy of another buffer with as many places. It takes no memory.
    pub fn copy_from(&mut self, other: &Self)
        requires { self.old.capacity ≡ other.now.capacity }
        ensures { self.new ≡ other.now }
    {
        self.entries.copy_from(&other.entries);
    }

    /// How many entries there are.
    pub fn len(&self) -> u32
        ensures { result ≡ length self.now.list }
    {
        self.entries.len() as u32
    }

    /// How many entries may leave.
    #[tactic(auto, using(crate::proofs::Once::fewer))]
    pub fn leaving(&self) -> u32
        ensures { result ≡ length (filter (λ e. may_leave e.state) self.now.list) }
    {
        count_free(&self.entries) as u32
    }

    /// How many entries there may be.
    pub fn capacity(&self) -> u32
        ensures { result ≡ self.now.capacity }
    {
        self.entries.capacity() as u32
    }

    /// Takes all entries out.
    pub fn clear(&mut self)
        ensures { self.new ≡ record self.old { list = [] } }
    {
        self.entries.clear();
    }

    /// Puts an entry behind the others.
    pub fn put(&mut self, item: ItemId, state: LeafState, words: Words<WORDS>) -> Result<(), Full>
        requires fresh { find (is_buffered item) self.old.list ≡ None }
        ensures full { IsErr result ↔ (length self.old.list ≡ self.old.capacity) }
        ensures test { is_err result ≡ nat_le self.old.capacity (length self.old.list) }
        ensures ok { OnOk result
            (self.new
            ≡ record self.old {
              list = self.old.list
                  ++ record { item = item; state = state; words = words.entry } ∷ [];
            }) }
        ensures err { OnErr result (self.new ≡ self.old) }
    {
        if self.entries.len() >= self.entries.capacity() {
            return Err(Full);
        }
        self.entries.put(BufferEntry { item, state, words });
        Ok(())
    }

    /// The place of the item's entry, and its state.
    pub fn find(&self, item: ItemId) -> Option<(u32, LeafState)>
        ensures place { option_map (λ p. p.0) result ≡ position (is_buffered item) self.now.list }
        ensures state { option_map (λ p. p.1) result ≡ option_map (λ e. e.state) (find (is_buffered item) self.now.list) }
        ensures once { are_distinct (map buffer_item self.now.list) ≡ true }
    {
        match self.entries.found(item) {
            Some((place, entry)) => Some((place as u32, entry.state)),
            None => None,
        }
    }

    pub fn words(&self, item: ItemId) -> Option<Words<WORDS>>
        ensures { result ≡ option_map (λ e. e.words) (find (is_buffered item) self.now.list) }
    {
        match self.entries.found(item) {
            Some((_, entry)) => Some(entry.words),
            None => None,
        }
    }

    /// Takes the item's entry out. The others stay in their order.
    pub fn remove(&mut self, item: ItemId) -> Option<(LeafState, Words<WORDS>)>
        ensures value { result ≡ option_map (λ e. (e.state, e.words)) (find (is_buffered item) self.old.list) }
        ensures rest { self.new ≡ record self.old { list = filter (λ e. not (is_buffered item e)) self.old.list } }
    {
        match self.entries.take_out(item) {
            Some(entry) => Some((entry.state, entry.words)),
            None => None,
        }
    }

    pub fn get(&self, place: u32) -> Option<(ItemId, LeafState, Words<WORDS>)>
        ensures { result ≡ option_map (λ e. (e.item, e.state, e.words)) (slice_get self.now.list place) }
    {
        match self.entries.get(place as usize) {
            Some(entry) => Some((entry.item, entry.state, entry.words)),
            None => None,
        }
    }

    /// The item of entry `choice mod m` of the m entries that may leave. None: there is none.
    #[tactic(auto, using(crate::proofs::Chosen::chosen_first, crate::proofs::Chosen::chosen_some, crate::proofs::Chosen::chosen_none))]
    pub fn ready(&self, choice: u8) -> Option<ItemId>
        ensures { result ≡ chosen (λ e. e.item) choice (filter (λ e. may_leave e.state) self.now.list) }
    {
        if choice == 0 {
            return nth_free(&self.entries, 0);
        }
        let free = count_free(&self.entries);
        if free == 0 {
            return None;
        }
        nth_free(&self.entries, choice as usize % free)
    }

    /// Puts the item's entry in another state.
    pub fn set_state(&mut self, item: ItemId, state: LeafState)
        requires { IsSome (find (is_buffered item) self.old.list) }
        ensures { self.new ≡ record self.old { list = map (with_state item state) self.old.list } }
    {
        set_state_of(&mut self.entries, item, state);
    }

    /// Gives the item's entry other words.
    pub fn set_words(&mut self, item: ItemId, words: Words<WORDS>)
        requires { IsSome (find (is_buffered item) self.old.list) }
        ensures { self.new ≡ record self.old { list = map (with_words item words.entry) self.old.list } }
    {
        set_words_of(&mut self.entries, item, &words);
    }
}

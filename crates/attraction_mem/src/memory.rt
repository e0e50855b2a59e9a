//! A leaf's memory in sets and ways.

ghost use Rattle.std.specs.Prelude.{◌≡◌, ◌+◌, ◌*◌, ◌%◌, ◌<◌, ◌≤◌, ◌↔◌, ℕ, [], length, Option, Some, None, Ok, IfOk};
ghost use Rattle.std.specs.Prelude.{IfErr, OnErr, IfSome, IfNone, IsSome, is_some, slice_index_or};
ghost use Rattle.std.specs.Option.{option_map};
ghost use Rattle.ddm_types.specs.declared.sizes.LeafState.{LeafState as State};
ghost use Rattle.attraction_mem.specs.Memory.{entry_of, empty_memory, StandsIn, StandsAs, IsFree, IsLowestFree};
ghost use Rattle.attraction_mem.specs.Memory.{IsFull, with_entry, place_of, without_entry, with_state, with_words};
ghost use Rattle.attraction_mem.specs.Memory.{way_and_state, state_and_words};

use crate::copying::copy_sets;
use crate::marks::{is_marked, mark};
use crate::places::{find_free, find_tag, first_place};
use ddm_types::{Divisor, ItemId, LeafState, NoMemory, Words};
use std::alloc::Global;
use std::marker::Model;

/// All ways of the set with this number are taken.
#[derive(Clone, Copy, Debug, PartialEq, Eq)]
pub struct SetFull(pub u32);

/// The items that stand in a leaf, each in one of the `WAYS` ways of its set, with its state and its
/// `WORDS` words. An item's set is its number modulo the number of sets.
#[derive(Drop)]
pub struct AttractionMem<const WAYS: usize, const WORDS: usize> {
    sets: Divisor,
    tags: Vec<Option<(ItemId, LeafState)>>,
    words: Vec<Words<WORDS>>,
    /// For each set the classes of its items that may stand in it. An item of another one is told to be absent by one look.
    marks: Vec<u64>,
}

impl<const WAYS: usize, const WORDS: usize> Model for AttractionMem<WAYS, WORDS> {
    ghost use Rattle.attraction_mem.specs.Memory.{MemoryValue, memory_code};
    ghost use Rattle.attraction_mem.specs.Marks.{AreMarked};
    ghost use Rattle.attraction_mem.specs.Places.{memory_of, IsKept};

    ghost Value = { MemoryValue };

    ghost coded = { memory_code };

    ghost view = { λ m. memory_of WAYS m.sets m.tags.items m.words.items };

    ghost invariant = { λ m. IsKept WAYS m.sets m.tags.items m.words.items × AreMarked m.sets m.tags.items m.marks.items };
}

impl<const WAYS: usize, const WORDS: usize> AttractionMem<WAYS, WORDS> {
    /// The only call that takes memory.
    pub fn new(alloc: Global, sets: u32) -> Result<Self, NoMemory>
        requires some_sets { 0 < sets }
        requires few_sets { sets ≤ 4096 }
        requires some_ways { 0 < WAYS }
        requires few_ways { WAYS ≤ 4 }
        ensures { IfOk result (λ m. m ≡ empty_memory sets) }
    {
        let places = sets as usize * WAYS;
        let tags = vec![in alloc; None; places]?;
        let words = vec![in alloc; Words { w: [0; WORDS] }; places]?;
        let marks = vec![in alloc; 0; sets as usize]?;
        Ok(AttractionMem {
            sets: Divisor::new(sets),
            tags,
            words,
            marks,
        })
    }

    /// Takes all items out.
    pub fn clear(&mut self)
        ensures { self.new ≡ empty_memory self.old.sets }
    {
        self.tags.fill(None);
        self.marks.fill(0);
    }

    /// How many sets it has: so few that all ways can be counted.
    pub fn sets(&self) -> u32
        ensures sets { result ≡ self.now.sets }
        ensures some { 0 < result }
        ensures few { result * WAYS ≤ 16384 }
    {
        self.sets.by()
    }

    /// The number of the item's set.
    fn set_of(&self, item: ItemId) -> u32
        ensures set { result ≡ item % self.now.sets }
        ensures inside { result < self.now.sets }
        ensures some_ways { 0 < WAYS }
    {
        self.sets.remainder(item.0)
    }

    /// How many ways each set has.
    pub fn ways(&self) -> u32
        ensures { result ≡ WAYS }
    {
        let _ = &self.sets;
        WAYS as u32
    }

    /// The item's way and state.
    pub fn find(&self, item: ItemId) -> Option<(u32, LeafState)>
        ensures value { result ≡ option_map way_and_state (entry_of self.now item) }
        ensures exists { IfSome result (λ found. found.0 < WAYS) }
    {
        if !is_marked(&self.sets, &self.marks, item) {
            return None;
        }
        let (place, state) = find_tag::<WAYS>(&self.sets, &self.tags, item)?;
        Some(((place % WAYS) as u32, state))
    }

    pub fn words(&self, item: ItemId) -> Option<Words<WORDS>>
        ensures { result ≡ option_map (λ entry. entry.words) (entry_of self.now item) }
    {
        let (place, _) = find_tag::<WAYS>(&self.sets, &self.tags, item)?;
        Some(self.words[place])
    }

    /// The state of the item's entry, and its place, by which it can be changed without a second search.
    #[inline(always)]
    pub fn seek(&self, item: ItemId) -> Option<(usize, LeafState)>
        ensures place { option_map (λ found. found.0) result ≡ place_of WAYS self.now item }
        ensures state { option_map (λ found. found.1) result ≡ option_map (λ entry. entry.state) (entry_of self.now item) }
    {
        if !is_marked(&self.sets, &self.marks, item) {
            return None;
        }
        find_tag::<WAYS>(&self.sets, &self.tags, item)
    }

    /// The words of the item, of which this is the place.
    #[inline(always)]
    pub fn words_at(&self, _item: ItemId, place: usize) -> Words<WORDS>
        requires { place_of WAYS self.now _item ≡ Some place }
        ensures { Some result ≡ option_map (λ entry. entry.words) (entry_of self.now _item) }
    {
        self.words[place]
    }

    /// The lowest free way of the item's set.
    pub fn free_way(&self, item: ItemId) -> Option<u32>
        ensures lowest { IfSome result (IsLowestFree WAYS self.now (item % self.now.sets)) }
        ensures full { IfNone result (IsFull WAYS self.now (item % self.now.sets)) }
    {
        let way = find_free::<WAYS>(&self.sets, &self.tags, item)?;
        Some(way as u32)
    }

    /// Puts the item into the lowest free way of its set, which is the answer.
    pub fn place(
        &mut self,
        item: ItemId,
        state: LeafState,
        words: Words<WORDS>,
    ) -> Result<u32, SetFull>
        requires { entry_of self.old item ≡ None }
        ensures lowest { IfOk result (IsLowestFree WAYS self.old (item % self.old.sets)) }
        ensures placed { IfOk result (λ way. self.new ≡ with_entry self.old item way state words.entry) }
        ensures full { OnErr result (IsFull WAYS self.old (item % self.old.sets)) }
        ensures set { IfErr result (λ full. full.0 ≡ item % self.old.sets) }
        ensures same { OnErr result (self.new ≡ self.old) }
    {
        let Some(way) = self.free_way(item) else {
            return Err(SetFull(self.set_of(item)));
        };
        self.place_at(item, way, state, words);
        Ok(way)
    }

    /// The item in way `victim % WAYS` of the item's set.
    pub fn victim(&self, item: ItemId, victim: u8) -> ItemId
        requires { IsFull WAYS self.now (item % self.now.sets) }
        ensures { (other : ℕ) → (result ≡ other) ↔ StandsIn self.now (item % self.now.sets) (victim % WAYS) other }
    {
        let set = self.set_of(item);
        let way = usize::from(victim) % WAYS;
        self.at(set, way as u32).unwrap()
    }

    /// The item in that way of that set.
    pub fn at(&self, set: u32, way: u32) -> Option<ItemId>
        requires set { set < self.now.sets }
        requires way { way < WAYS }
        ensures { (item : ℕ) → (result ≡ Some item) ↔ StandsIn self.now set way item }
    {
        let (item, _) = self.tags[set as usize * WAYS + way as usize]?;
        Some(item)
    }

    /// The item in that way of this item's set.
    pub fn beside(&self, item: ItemId, way: u32) -> Option<ItemId>
        requires { way < WAYS }
        ensures { (other : ℕ) → (result ≡ Some other) ↔ StandsIn self.now (item % self.now.sets) way other }
    {
        self.at(self.set_of(item), way)
    }

    /// Puts the item into that way of its set.
    pub fn place_at(&mut self, item: ItemId, way: u32, state: LeafState, words: Words<WORDS>)
        requires absent { entry_of self.old item ≡ None }
        requires exists { way < WAYS }
        requires free { IsFree self.old (item % self.old.sets) way }
        ensures { self.new ≡ with_entry self.old item way state words.entry }
    {
        let free = first_place::<WAYS>(&self.sets, item) + way as usize;
        self.tags[free] = Some((item, state));
        self.words[free] = words;
        mark(&self.sets, &mut self.marks, item);
    }

    /// Takes the item out, where it stands here.
    pub fn remove(&mut self, item: ItemId) -> Option<(LeafState, Words<WORDS>)>
        ensures value { result ≡ option_map state_and_words (entry_of self.old item) }
        ensures removed { self.new ≡ without_entry self.old item }
    {
        let (place, state) = find_tag::<WAYS>(&self.sets, &self.tags, item)?;
        self.tags[place] = None;
        Some((state, self.words[place]))
    }

    pub fn set_state(&mut self, item: ItemId, state: LeafState)
        requires { IsSome (entry_of self.old item) }
        ensures { self.new ≡ with_state self.old item state }
    {
        let (place, _) = find_tag::<WAYS>(&self.sets, &self.tags, item).unwrap();
        self.tags[place] = Some((item, state));
    }

    pub fn set_words(&mut self, item: ItemId, words: Words<WORDS>)
        requires { IsSome (entry_of self.old item) }
        ensures { self.new ≡ with_words self.old item words.entry }
    {
        let (place, _) = find_tag::<WAYS>(&self.sets, &self.tags, item).unwrap();
        self.words[place] = words;
    }

    /// The item, of which this is the place, gets this state.
    #[inline(always)]
    pub fn set_state_at(&mut self, item: ItemId, place: usize, state: LeafState)
        requires { place_of WAYS self.old item ≡ Some place }
        ensures { self.new ≡ with_state self.old item state }
    {
        self.tags[place] = Some((item, state));
    }

    /// The item, of which this is the place, gets this state and these words.
    #[inline(always)]
    pub fn change_at(&mut self, item: ItemId, at: usize, state: LeafState, words: Words<WORDS>)
        requires { place_of WAYS self.old item ≡ Some at }
        ensures { self.new ≡ with_words (with_state self.old item state) item words.entry }
    {
        self.tags[at] = Some((item, state));
        self.words[at] = words;
    }

    /// Takes the item out, of which this is the place.
    #[inline(always)]
    pub fn remove_at(&mut self, _item: ItemId, at: usize)
        requires { place_of WAYS self.old _item ≡ Some at }
        ensures { self.new ≡ without_entry self.old _item }
    {
        self.tags[at] = None;
    }

    /// Becomes a copy of another memory with as many sets. It takes no memory.
    pub fn copy_from(&mut self, other: &Self)
        requires { self.old.sets ≡ other.now.sets }
        ensures { self.new ≡ other.now }
    {
        copy_sets::<WAYS, WORDS>(
            &mut self.tags,
            &mut self.words,
            &mut self.marks,
            &other.tags,
            &other.words,
            &other.marks,
        );
    }

    /// A tag for each way of each set, one set after the other: the item that stands there and its state.
    pub fn tags(&self) -> &[Option<(ItemId, LeafState)>]
        ensures places { length result.now ≡ self.now.sets * WAYS }
        ensures standing { (set way item : ℕ) (state : State) → way < WAYS →
            (slice_index_or result.now (set * WAYS + way) None ≡ Some (item, state)) ↔ StandsAs self.now set way item state }
        ensures inside { (item : ℕ) → IfSome (entry_of self.now item) (λ entry. entry.way < WAYS) }
    {
        &self.tags
    }

    /// The words of the same places. Those of a place with no tag mean nothing.
    pub fn stored(&self) -> &[Words<WORDS>]
        ensures places { length result.now ≡ self.now.sets * WAYS }
        ensures standing { (item : ℕ) → IfSome (entry_of self.now item) (λ entry.
            slice_index_or result.now (item % self.now.sets * WAYS + entry.way) [] ≡ entry.words) }
    {
        &self.words
    }
}

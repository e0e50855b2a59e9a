//! The parking of a directory.

ghost use Rattle.std.specs.Prelude.{◌≡◌, ◌+◌, ◌-◌, ◌^◌, ◌<◌, ◌≤◌, ◌↔◌, ◌++◌, ◌∷◌, [], None, true, length, map};
ghost use Rattle.std.specs.Prelude.{filter, find, not, nat_le, position, option_map, slice_get, IfOk, IsErr, OnErr};
ghost use Rattle.std.specs.Prelude.{OnOk, is_err};
ghost use Rattle.replacement.specs.TreeModel.State.Leaf.{is_copy};
ghost use Rattle.replacement.specs.TreeModel.State.Shape.{are_distinct};
ghost use Rattle.replacement.specs.TreeModel.State.Leaf.{copy_item};
ghost use Rattle.replacement.specs.TreeModel.State.Lists.{chosen};

use crate::Full;
use crate::arrivals::Arrivals;
use crate::entries::ParkedCopy;
use crate::of_ddm_types::{ItemId, NoMemory, Words};
use std::alloc::Global;
use std::marker::Model;

/// The copies of which no child of a directory has room, in order of arrival. Places are reserved for copies that are
/// under way.
#[derive(Drop)]
pub struct Parking<const WORDS: usize> {
    pub(crate) entries: Arrivals<ParkedCopy<WORDS>>,
    reserved: u32,
}

impl<const WORDS: usize> Model for Parking<WORDS> {
    ghost use Rattle.std.specs.Prelude.{◌+◌, length, map};
    ghost use Rattle.replacement.specs.TreeModel.State.Leaf.{copy_item};
    ghost use Rattle.replacement.specs.Arrived.{IsHeld, ParkingList};

    ghost Value = { ParkingList };

    ghost view = { λ p. record { list = p.entries.list; capacity = p.entries.capacity; reserved = p.reserved } };

    ghost invariant = { λ p. IsHeld WORDS (map copy_item p.entries.list) (length p.entries.list + p.reserved) p.entries.capacity };
}

impl<const WORDS: usize> Parking<WORDS> {
    /// An empty parking with no reserved place. No later call takes memory.
    pub fn new(alloc: Global, capacity: u32) -> Result<Self, NoMemory>
        requires { WORDS < 2 ^ 32 }
        ensures { IfOk result (λ p. p ≡ record { list = []; capacity = capacity; reserved = 0 }) }
    {
        let entries = Arrivals::new(alloc, capacity as usize, ParkedCopy::blank())?;
        Ok(Parking {
            entries,
            reserved: 0,
        })
    }

    /// Becomes a copy of another parking with as many places. It takes no memory.
    pub fn copy_from(&mut self, other: &Self)
        requires { self.old.capacity ≡ other.now.capacity }
        ensures { self.new ≡ other.now }
    {
        self.entries.copy_from(&other.entries);
        self.reserved = other.reserved;
    }

    /// Takes all copies out and gives all reserved places back.
    pub fn clear(&mut self)
        ensures { self.new ≡ record self.old { list = []; reserved = 0 } }
    {
        self.entries.clear();
        self.reserved = 0;
    }

    /// Whether each place is taken or reserved.
    pub fn is_full(&self) -> bool
        ensures full { result ≡ nat_le self.now.capacity (length self.now.list + self.now.reserved) }
        ensures within { length self.now.list + self.now.reserved ≤ self.now.capacity }
    {
        self.entries.capacity() - self.reserved as usize <= self.entries.len()
    }

    /// Puts a copy behind the others, in a place that is not reserved.
    pub fn put(&mut self, item: ItemId, words: Words<WORDS>) -> Result<(), Full>
        requires fresh { find (is_copy item) self.old.list ≡ None }
        ensures full { IsErr result ↔ (length self.old.list + self.old.reserved ≡ self.old.capacity) }
        ensures test { is_err result ≡ nat_le self.old.capacity (length self.old.list + self.old.reserved) }
        ensures ok { OnOk result (self.new ≡ record self.old { list = self.old.list ++ record { item = item; words = words.entry } ∷ [] }) }
        ensures err { OnErr result (self.new ≡ self.old) }
    {
        if self.is_full() {
            return Err(Full);
        }
        self.entries.put(ParkedCopy { item, words });
        Ok(())
    }

    /// Reserves one more place.
    pub fn reserve(&mut self) -> Result<(), Full>
        ensures full { IsErr result ↔ (length self.old.list + self.old.reserved ≡ self.old.capacity) }
        ensures test { is_err result ≡ nat_le self.old.capacity (length self.old.list + self.old.reserved) }
        ensures ok { OnOk result (self.new ≡ record self.old { reserved = self.old.reserved + 1 }) }
        ensures err { OnErr result (self.new ≡ self.old) }
    {
        if self.is_full() {
            return Err(Full);
        }
        self.reserved += 1;
        Ok(())
    }

    /// Puts a copy behind the others, in a reserved place.
    pub fn put_reserved(&mut self, item: ItemId, words: Words<WORDS>)
        requires fresh { find (is_copy item) self.old.list ≡ None }
        requires kept { 0 < self.old.reserved }
        ensures { self.new
            ≡ record self.old {
              list = self.old.list ++ record { item = item; words = words.entry } ∷ [];
              reserved = self.old.reserved - 1;
            } }
    {
        let kept = self.reserved - 1;
        self.entries.put(ParkedCopy { item, words });
        self.reserved = kept;
    }

    /// How many copies and reserved places there may be.
    pub fn capacity(&self) -> u32
        ensures { result ≡ self.now.capacity }
    {
        self.entries.capacity() as u32
    }

    /// How many copies there are.
    pub fn len(&self) -> u32
        ensures { result ≡ length self.now.list }
    {
        self.entries.len() as u32
    }

    /// How many places have a copy or are reserved.
    pub fn used(&self) -> u32
        ensures { result ≡ length self.now.list + self.now.reserved }
    {
        self.entries.len() as u32 + self.reserved
    }

    /// How many places are reserved.
    pub fn reserved(&self) -> u32
        ensures { result ≡ self.now.reserved }
    {
        self.reserved
    }

    /// So many places are reserved from now on.
    pub fn keep(&mut self, places: u32)
        requires { places ≤ self.old.capacity - length self.old.list }
        ensures { self.new ≡ record self.old { reserved = places } }
    {
        self.reserved = places;
    }

    /// How many places have no copy, reserved or not.
    pub fn room(&self) -> u32
        ensures { result ≡ self.now.capacity - length self.now.list }
    {
        (self.entries.capacity() - self.entries.len()) as u32
    }

    /// Gives a reserved place back.
    pub fn release(&mut self)
        requires { 0 < self.old.reserved }
        ensures { self.new ≡ record self.old { reserved = self.old.reserved - 1 } }
    {
        self.reserved -= 1;
    }

    pub fn words(&self, item: ItemId) -> Option<Words<WORDS>>
        ensures { result ≡ option_map (λ e. e.words) (find (is_copy item) self.now.list) }
    {
        match self.entries.found(item) {
            Some((_, entry)) => Some(entry.words),
            None => None,
        }
    }

    /// Takes the item's copy out. The others stay in their order.
    pub fn remove(&mut self, item: ItemId) -> Option<Words<WORDS>>
        ensures value { result ≡ option_map (λ e. e.words) (find (is_copy item) self.old.list) }
        ensures rest { self.new ≡ record self.old { list = filter (λ e. not (is_copy item e)) self.old.list } }
    {
        match self.entries.take_out(item) {
            Some(entry) => Some(entry.words),
            None => None,
        }
    }

    /// The place of the item's copy.
    pub fn find(&self, item: ItemId) -> Option<u32>
        ensures place { result ≡ position (is_copy item) self.now.list }
        ensures once { are_distinct (map copy_item self.now.list) ≡ true }
    {
        match self.entries.found(item) {
            Some((place, _)) => Some(place as u32),
            None => None,
        }
    }

    pub fn get(&self, place: u32) -> Option<(ItemId, Words<WORDS>)>
        ensures { result ≡ option_map (λ e. (e.item, e.words)) (slice_get self.now.list place) }
    {
        match self.entries.get(place as usize) {
            Some(entry) => Some((entry.item, entry.words)),
            None => None,
        }
    }

    /// The item of copy `choice mod m` of the m copies. None: there is none.
    #[tactic(auto, using(crate::proofs::Chosen::chosen_at, crate::proofs::Chosen::chosen_none))]
    pub fn ready(&self, choice: u8) -> Option<ItemId>
        ensures { result ≡ chosen (λ e. e.item) choice self.now.list }
    {
        let copies = self.entries.len();
        if copies == 0 {
            return None;
        }
        let entry = self.entries.at(choice as usize % copies);
        Some(entry.item)
    }
}

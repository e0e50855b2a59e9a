//! The replies of a leaf.

ghost use Rattle.std.specs.Prelude.{◌≡◌, ℕ, ◌^◌, ◌≤◌, ◌<◌, ◌↔◌, ◌++◌, ◌∷◌, [], drop, length, nat_le, option_copied};
ghost use Rattle.std.specs.Prelude.{slice_get, IfErr, IfOk, IsErr, IsTrue, OnErr, OnOk, is_err};
ghost use Rattle.std.specs.List.{flat_map};
ghost use Rattle.leaf_protocol.specs.DdmText.Adds.{Adds};
ghost use Rattle.leaf_protocol.specs.StateWords.Begins.{Begins};
ghost use Rattle.leaf_protocol.specs.StateWords.Parts.{counted, item_and_words};
ghost use Rattle.leaf_protocol.specs.TreeModel.State.Lists.{names_item};
ghost use Rattle.tx_queue.specs.QueueList.{count_naming};
ghost use Rattle.leaf_protocol.specs.Leaf.{copied_item, copy_value};

use crate::of_ddm_types::{ItemId, NoMemory, Words};
use crate::of_state_words::{Spelled, push_words};
use circular_buffer::HeapCircularBuffer;
use std::alloc::Global;
use std::marker::Model;

/// The replies of a leaf in order of arrival, of items below a number. A run never asks which items they name, so they have no table of
/// that, as other lists have. It takes its memory when it is made.
#[derive(Drop)]
pub(crate) struct Replies<const WORDS: usize> {
    ring: HeapCircularBuffer<(ItemId, Words<WORDS>)>,
    items: u32,
}

/// Puts the words of these entries at the end.
fn write_each<T: Spelled>(
    entries: &HeapCircularBuffer<T>,
    out: &mut Vec<u32>,
) -> Result<(), NoMemory>
    ensures ok { OnOk result (Adds out.old.items out.new.items (flat_map T.words entries.now.items)) }
    ensures err { OnErr result (Begins out.old.items out.new.items) }
{
    for entry in entries.iter() {
        entry.spell(out)?;
    }
    Ok(())
}

/// Whether a reply names the item.
fn names_item<const WORDS: usize>(reply: &(ItemId, Words<WORDS>), item: ItemId) -> bool
    ensures { result ≡ names_item copied_item item reply.now }
{
    reply.0.0 == item.0
}

/// How many of these replies name the item.
fn count_naming<const WORDS: usize>(replies: &[(ItemId, Words<WORDS>)], item: ItemId) -> u32
    requires { length replies.now < 2 ^ 32 }
    ensures naming { result ≡ count_naming copied_item item replies.now }
    ensures most { result ≤ length replies.now }
{
    let mut count = 0;
    for reply in replies {
        if names_item(reply, item) {
            count += 1;
        }
    }
    count
}

impl<const WORDS: usize> Model for Replies<WORDS> {
    ghost use Rattle.std.specs.Prelude.{◌<◌, ◌≤◌, ◌^◌, ℕ, List, length};
    ghost use Rattle.tx_queue.specs.QueueList.{QueueList};

    ghost Value = { QueueList (ℕ × List ℕ) };

    ghost view = { λ r. record { list = r.ring.items; capacity = r.ring.capacity; items = r.items } };

    ghost invariant = { λ r. (r.ring.capacity < 2 ^ 32) × (length r.ring.items ≤ r.ring.capacity) };
}

impl<const WORDS: usize> Replies<WORDS> {
    /// None, of items below `items`. No later call takes memory.
    pub fn new(alloc: Global, capacity: u32, items: u32) -> Result<Self, NoMemory>
        ensures { IfOk result (λ r. r ≡ record { list = []; capacity = capacity; items = items }) }
    {
        let ring = HeapCircularBuffer::with_capacity(alloc, capacity as usize)?;
        Ok(Replies { ring, items })
    }

    /// Becomes a copy of other replies with as many places, of as many items. It takes no memory.
    pub fn copy_from(&mut self, other: &Self)
        requires capacity { self.old.capacity ≡ other.now.capacity }
        requires items { self.old.items ≡ other.now.items }
        ensures { self.new ≡ other.now }
    {
        let (front, back) = other.ring.as_slices();
        self.ring.clear();
        self.ring.extend_from_slice(front);
        self.ring.extend_from_slice(back);
    }

    /// Puts a reply behind the others, or gives it back.
    pub fn push(&mut self, reply: (ItemId, Words<WORDS>)) -> Result<(), (ItemId, Words<WORDS>)>
        ensures full { IsErr result ↔ (length self.old.list ≡ self.old.capacity) }
        ensures test { is_err result ≡ nat_le self.old.capacity (length self.old.list) }
        ensures ok { OnOk result (self.new ≡ record self.old { list = self.old.list ++ reply.entry ∷ [] }) }
        ensures err { IfErr result (λ r. (r ≡ reply.entry) × (self.new ≡ self.old)) }
    {
        self.ring.try_push_back(reply)
    }

    /// Puts a reply behind the others, where there is a place.
    pub fn put(&mut self, reply: (ItemId, Words<WORDS>))
        requires { length self.old.list < self.old.capacity }
        ensures { self.new ≡ record self.old { list = self.old.list ++ reply.entry ∷ [] } }
    {
        match self.push(reply) {
            Ok(()) => {}
            Err(_) => unreachable!(),
        }
    }

    pub fn first(&self) -> Option<&(ItemId, Words<WORDS>)>
        ensures { option_copied result ≡ slice_get self.now.list 0 }
    {
        self.ring.front()
    }

    /// Takes the first reply.
    pub fn pop(&mut self) -> Option<(ItemId, Words<WORDS>)>
        ensures value { result ≡ slice_get self.old.list 0 }
        ensures rest { self.new ≡ record self.old { list = drop 1 self.old.list } }
    {
        self.ring.pop_front()
    }

    /// Takes all replies out.
    pub fn clear(&mut self)
        ensures { self.new ≡ record self.old { list = [] } }
    {
        self.ring.clear();
    }

    /// How many replies there are.
    pub fn len(&self) -> u32
        ensures { result ≡ length self.now.list }
    {
        self.ring.len() as u32
    }

    /// How many replies there may be.
    pub fn capacity(&self) -> u32
        ensures { result ≡ self.now.capacity }
    {
        self.ring.capacity() as u32
    }

    pub fn full(&self) -> bool
        ensures full { IsTrue result ↔ (length self.now.list ≡ self.now.capacity) }
        ensures test { result ≡ nat_le self.now.capacity (length self.now.list) }
    {
        self.ring.is_full()
    }

    pub fn get(&self, place: u32) -> Option<&(ItemId, Words<WORDS>)>
        ensures { option_copied result ≡ slice_get self.now.list place }
    {
        self.ring.get(place as usize)
    }

    /// How many replies name the item.
    pub fn naming(&self, item: ItemId) -> u32
        requires { WORDS < 2 ^ 32 }
        ensures { result ≡ count_naming copied_item item self.now.list }
    {
        let (front, back) = self.ring.as_slices();
        count_naming(front, item) + count_naming(back, item)
    }

    /// Puts the words of the replies at the end, with how many there are before them.
    pub fn write(&self, out: &mut Vec<u32>) -> Result<(), NoMemory>
        requires { WORDS < 2 ^ 32 }
        ensures ok { OnOk result (Adds out.old.items out.new.items (counted (λ c. item_and_words (copy_value c)) self.now.list)) }
        ensures err { OnErr result (Begins out.old.items out.new.items) }
    {
        push_words(out, &[self.ring.len() as u32])?;
        write_each(&self.ring, out)
    }
}

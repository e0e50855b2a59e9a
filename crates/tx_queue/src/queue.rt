//! A bounded list of transactions.

ghost use Rattle.std.specs.Prelude.{◌≡◌, ℕ, ◌<◌, ◌↔◌, ◌++◌, ◌∷◌, [], false, drop, length, nat_le, option_copied};
ghost use Rattle.std.specs.Prelude.{slice_get, slice_index, IfErr, IfOk, IfSome, IsErr, IsTrue, OnOk, is_err};
ghost use Rattle.std.specs.List.{list_any};
ghost use Rattle.circular_buffer.specs.Buffer.{buffer};
ghost use Rattle.tx_queue.specs.TreeModel.State.Lists.{names_item};
ghost use Rattle.tx_queue.specs.QueueList.{count_naming};

use crate::of_ddm_types::{ItemId, NoMemory};
use crate::of_item_states::Named;
use circular_buffer::HeapCircularBuffer;
use std::alloc::Global;
use std::marker::Model;

/// A list of transactions in order of arrival. It takes its memory when it is made.
#[derive(Drop)]
pub struct Queue<T: Named> {
    pub(crate) ring: HeapCircularBuffer<T>,
    /// For each item the number of entries that name it.
    pub(crate) counts: Vec<u32>,
}

impl<T: Named> Model for Queue<T> {
    ghost use Rattle.std.specs.Prelude.{length};
    ghost use Rattle.tx_queue.specs.QueueList.{IsCounted, QueueList, queue_code};

    ghost Value = { QueueList T };

    ghost coded = { queue_code T.code };

    ghost view = { λ q. record { list = q.ring.items; capacity = q.ring.capacity; items = length q.counts.items } };

    ghost invariant = { λ q. IsCounted T.named q.counts.items q.ring.items q.ring.capacity };
}

impl<T: Named> Queue<T> {
    /// An empty list of entries that name items below `items`. No later call takes memory.
    pub fn new(alloc: Global, capacity: u32, items: u32) -> Result<Self, NoMemory>
    where
        T: Drop,
        ensures { IfOk result (λ q. q ≡ record { list = []; capacity = capacity; items = items }) }
    {
        let ring = HeapCircularBuffer::with_capacity(alloc, capacity as usize)?;
        let counts = vec![in alloc; 0; items as usize]?;
        Ok(Queue { ring, counts })
    }

    /// Puts an entry behind the others, or gives it back.
    pub fn push(&mut self, entry: T) -> Result<(), T>
        requires { T.named entry < self.old.items }
        ensures full { IsErr result ↔ (length self.old.list ≡ self.old.capacity) }
        ensures test { is_err result ≡ nat_le self.old.capacity (length self.old.list) }
        ensures ok { OnOk result (self.new ≡ record self.old { list = self.old.list ++ entry ∷ [] }) }
        ensures err { IfErr result (λ e. (e ≡ entry) × (self.new ≡ self.old)) }
    {
        let item = entry.item();
        match self.ring.try_push_back(entry) {
            Ok(()) => {
                self.counts[item.0 as usize] += 1;
                Ok(())
            }
            Err(entry) => Err(entry),
        }
    }

    pub fn first(&self) -> Option<&T>
        ensures value { option_copied result ≡ slice_get self.now.list 0 }
        ensures in_range { IfSome result (λ e. T.named e.now < self.now.items) }
    {
        self.ring.front()
    }

    /// Takes the first entry.
    pub fn pop(&mut self) -> Option<T>
        ensures value { result ≡ slice_get self.old.list 0 }
        ensures rest { self.new ≡ record self.old { list = drop 1 self.old.list } }
    {
        match self.ring.pop_front() {
            Some(entry) => {
                let item = entry.item();
                self.counts[item.0 as usize] -= 1;
                Some(entry)
            }
            None => None,
        }
    }

    pub fn len(&self) -> u32
        ensures { result ≡ length self.now.list }
    {
        self.ring.len() as u32
    }

    /// How many entries there may be.
    pub fn capacity(&self) -> u32
        ensures { result ≡ self.now.capacity }
    {
        self.ring.capacity() as u32
    }

    pub fn full(&self) -> bool
        ensures full { IsTrue result ↔ (length self.now.list ≡ self.now.capacity) }
        ensures test { result ≡ nat_le self.now.capacity (length self.now.list) }
    {
        self.ring.is_full()
    }

    /// Whether some entry names the item.
    pub fn holds_item(&self, item: ItemId) -> bool
        requires { item < self.now.items }
        ensures { result ≡ list_any (names_item T.named item) self.now.list }
    {
        self.counts[item.0 as usize] > 0
    }

    pub fn get(&self, place: u32) -> Option<&T>
        ensures { option_copied result ≡ slice_get self.now.list place }
    {
        self.ring.get(place as usize)
    }

    /// The entries as they are kept.
    pub fn ring(&self) -> &HeapCircularBuffer<T>
        ensures { result.now ≡ buffer self.now.list self.now.capacity }
    {
        &self.ring
    }

    /// For each item the number of entries that name it.
    pub fn counts(&self) -> &[u32]
        ensures items { length result.now ≡ self.now.items }
        ensures counts { (x : ℕ) → x < self.now.items → slice_index result.now x ≡ count_naming T.named x self.now.list }
    {
        self.counts.as_slice()
    }
}

impl<T: Named + Copy> Queue<T> {
    /// Takes all entries out.
    pub fn clear(&mut self)
        ensures { self.new ≡ record self.old { list = [] } }
    {
        self.ring.clear();
        self.counts.fill(0);
    }

    /// Puts an entry behind the others, where there is a place.
    pub fn put(&mut self, entry: T)
        requires names { T.named entry < self.old.items }
        requires place { nat_le self.old.capacity (length self.old.list) ≡ false }
        ensures { self.new ≡ record self.old { list = self.old.list ++ entry ∷ [] } }
    {
        match self.push(entry) {
            Ok(()) => {}
            Err(_) => unreachable!(),
        }
    }
}

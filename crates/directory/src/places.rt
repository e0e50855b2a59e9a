//! Where the entries of a list were when it was read.

use crate::of_ddm_types::ItemId;
use crate::of_tx_queue::Queue;
use std::alloc::Global;
use tx_queue::of_item_states::Named;

/// Fewer entries than these are searched as fast as they are told.
const FEW: u32 = 16;

/// The place of no entry.
const NOWHERE: u32 = u32::MAX;

/// Where the entries of a list stood when it was read: for each item the place of its first one, and for each place that of the next
/// one of the same item. Nothing keeps it true when the list changes, and no clause says that it is: who asks it looks at the entries,
/// and searches the list where they aren't those.
#[derive(Drop)]
pub(crate) struct Places {
    first: Vec<u32>,
    next: Vec<u32>,
}

impl Places {
    /// Of no list. It takes no memory.
    pub(crate) fn none(alloc: Global) -> Self {
        Places {
            first: Vec::new(alloc),
            next: Vec::new(alloc),
        }
    }

    /// The place of the item's first entry.
    pub(crate) fn first(&self, item: ItemId) -> u32 {
        match self.first.get(item.0 as usize) {
            Some(place) => *place,
            None => NOWHERE,
        }
    }

    /// The place behind this one of an entry of the same item.
    pub(crate) fn next(&self, place: u32) -> u32 {
        match self.next.get(place as usize) {
            Some(next) => *next,
            None => NOWHERE,
        }
    }

    /// Puts an entry before all that were put.
    fn put(&mut self, item: ItemId, place: u32) {
        if let Some(first) = self.first.get_mut(item.0 as usize) {
            let behind = *first;
            *first = place;
            if let Some(next) = self.next.get_mut(place as usize) {
                *next = behind;
            }
        }
    }

    /// Of this list. Where memory is short it knows no places.
    pub(crate) fn tell<T: Named>(&mut self, list: &Queue<T>) {
        self.first.clear();
        self.next.clear();
        if list.len() < FEW {
            return;
        }
        let items = list.counts().len();
        if self.first.resize(items, NOWHERE).is_err() {
            return;
        }
        if self.next.resize(list.len() as usize, NOWHERE).is_err() {
            return;
        }
        for behind in 0..list.len() {
            let place = list.len() - 1 - behind;
            if let Some(entry) = list.get(place) {
                self.put(entry.item(), place);
            }
        }
    }
}

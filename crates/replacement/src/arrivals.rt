//! Entries in order of arrival, each in a place of its own.

ghost use Rattle.std.specs.Prelude.{◌≡◌, ℕ, ◌+◌, ◌<◌, ◌≤◌, ◌++◌, ◌∷◌, [], true, not, length, map, filter, find};
ghost use Rattle.std.specs.Prelude.{position, remove, option_map, nat_le, nat_lt, slice_get, slice_index_or};
ghost use Rattle.std.specs.Prelude.{slice_set, if◌then◌else◌, IfOk, IfSome, vec_capacity, vec_len};
ghost use Rattle.replacement.specs.TreeModel.State.Shape.{are_distinct};
ghost use Rattle.replacement.specs.TreeModel.State.Lists.{names_item};
ghost use Rattle.replacement.specs.Places.{times};

use crate::of_ddm_types::{ItemId, NoMemory};
use crate::of_item_states::Named;
use std::alloc::Global;
use std::marker::Model;

/// Entries in order of arrival. All places are made at once, and an entry stays in its place until it is taken out.
#[derive(Drop)]
pub(crate) struct Arrivals<T> {
    places: Vec<T>,
    /// The places that are taken, in order of arrival.
    order: Vec<usize>,
    /// The other places.
    free: Vec<usize>,
}

impl<T> Model for Arrivals<T> {
    ghost use Rattle.std.specs.Prelude.{length, vec_capacity};
    ghost use Rattle.replacement.specs.Places.{ArrivedList, IsPlaced, arrived_code, in_order};

    ghost Value = { ArrivedList T };

    ghost coded = { arrived_code T.code };

    ghost view = { λ a. record { list = in_order a.places.items a.order.items; capacity = length a.places.items } };

    ghost invariant = { λ a. IsPlaced (length a.places.items) a.order.items a.free.items (vec_capacity a.order) (vec_capacity a.free) };
}

/// Puts a number behind the others, where there is memory for it.
fn add(numbers: &mut Vec<usize>, number: usize)
    requires { vec_len numbers.old < vec_capacity numbers.old }
    ensures items { numbers.new.items ≡ numbers.old.items ++ number ∷ [] }
    ensures capacity { vec_capacity numbers.old ≤ vec_capacity numbers.new }
{
    match numbers.push(number) {
        Ok(()) => {}
        Err(_) => unreachable!(),
    }
}

/// Puts these numbers behind the others, where there is memory for them.
fn add_all(numbers: &mut Vec<usize>, others: &[usize])
    requires { vec_len numbers.old + length others.now ≤ vec_capacity numbers.old }
    ensures items { numbers.new.items ≡ numbers.old.items ++ others.now }
    ensures capacity { vec_capacity numbers.old ≤ vec_capacity numbers.new }
{
    if numbers.extend_from_slice(others).is_err() {
        unreachable!();
    }
}

/// Puts these numbers in place of those that are there, where there is memory for them.
fn refill(numbers: &mut Vec<usize>, others: &[usize])
    requires { length others.now ≤ vec_capacity numbers.old }
    ensures items { numbers.new.items ≡ others.now }
    ensures capacity { vec_capacity numbers.old ≤ vec_capacity numbers.new }
{
    numbers.clear();
    add_all(numbers, others);
}

/// The numbers of so many places.
fn numbers_below(alloc: Global, places: usize) -> Result<Vec<usize>, NoMemory>
    ensures once { IfOk result (λ v. (p : ℕ) → times p v.items ≡ (if nat_lt p places then 1 else 0)) }
    ensures each { IfOk result (λ v. length v.items ≡ places) }
    ensures fits { IfOk result (λ v. places ≤ vec_capacity v) }
{
    let mut numbers = Vec::with_capacity(alloc, places)?;
    for place in 0..places {
        add(&mut numbers, place);
    }
    Ok(numbers)
}

impl<T: Copy> Arrivals<T> {
    /// No entries. Each place is filled with `blank` until an entry comes.
    pub fn new(alloc: Global, capacity: usize, blank: T) -> Result<Self, NoMemory>
        ensures { IfOk result (λ a. a ≡ record { list = []; capacity = capacity }) }
    {
        let places = vec![in alloc; blank; capacity]?;
        let order = Vec::with_capacity(alloc, capacity)?;
        let free = numbers_below(alloc, capacity)?;
        Ok(Arrivals {
            places,
            order,
            free,
        })
    }

    pub fn len(&self) -> usize
        ensures value { result ≡ length self.now.list }
        ensures within { result ≤ self.now.capacity }
    {
        self.order.len()
    }

    pub fn capacity(&self) -> usize
        ensures { result ≡ self.now.capacity }
    {
        self.places.len()
    }

    /// The entry with so many before it.
    pub fn at(&self, index: usize) -> T
        requires { index < length self.now.list }
        ensures { result ≡ slice_index_or self.now.list index result }
    {
        self.places[self.order[index]]
    }

    pub fn get(&self, index: usize) -> Option<T>
        ensures { result ≡ slice_get self.now.list index }
    {
        if index < self.len() {
            Some(self.at(index))
        } else {
            None
        }
    }

    /// Puts an entry behind the others, into a free place.
    pub fn put(&mut self, entry: T)
        requires { length self.old.list < self.old.capacity }
        ensures { self.new ≡ record self.old { list = self.old.list ++ entry ∷ [] } }
    {
        match self.free.pop() {
            Some(place) => {
                self.places[place] = entry;
                add(&mut self.order, place);
            }
            None => unreachable!(),
        }
    }

    /// Puts an entry in the place of the one with so many before it.
    pub fn set(&mut self, index: usize, entry: T)
        requires { index < length self.old.list }
        ensures { self.new ≡ record self.old { list = slice_set self.old.list index entry } }
    {
        let place = self.order[index];
        self.places[place] = entry;
    }

    /// Becomes a copy of another list with as many places. It takes no memory.
    pub fn copy_from(&mut self, other: &Self)
        requires { self.old.capacity ≡ other.now.capacity }
        ensures { self.new ≡ other.now }
    {
        self.places.copy_from_slice(&other.places);
        refill(&mut self.order, &other.order);
        refill(&mut self.free, &other.free);
    }

    /// Takes all entries out. Their places are free from now on.
    pub fn clear(&mut self)
        ensures { self.new ≡ record self.old { list = [] } }
    {
        add_all(&mut self.free, &self.order);
        self.order.clear();
    }

    /// Takes out the entry with so many before it. Its place is free from now on.
    pub fn remove(&mut self, index: usize)
        requires { index < length self.old.list }
        ensures { self.new ≡ record self.old { list = remove self.old.list index } }
    {
        let place = self.order.remove(index);
        add(&mut self.free, place);
    }
}

impl<T: Named + Copy> Arrivals<T> {
    /// How many entries stand before the first one that names the item.
    pub fn index_of(&self, item: ItemId) -> Option<usize>
        ensures index { result ≡ position (names_item T.named item) self.now.list }
        ensures within { IfSome result (λ index. index < length self.now.list) }
    {
        for index in 0..self.len() {
            let entry = self.at(index);
            if item == entry.item() {
                return Some(index);
            }
        }
        None
    }

    /// The first entry that names the item, and how many stand before it.
    #[tactic(auto, using(crate::proofs::Finds::found_at, crate::proofs::Finds::found_none))]
    pub fn found(&self, item: ItemId) -> Option<(usize, T)>
        ensures index { option_map (λ p. p.0) result ≡ position (names_item T.named item) self.now.list }
        ensures within { IfSome result (λ p. p.0 < length self.now.list) }
        ensures entry { option_map (λ p. p.1) result ≡ find (names_item T.named item) self.now.list }
    {
        match self.index_of(item) {
            Some(index) => Some((index, self.at(index))),
            None => None,
        }
    }

    /// Takes out the entry that names the item.
    pub fn take_out(&mut self, item: ItemId) -> Option<T>
        requires { are_distinct (map T.named self.old.list) ≡ true }
        ensures value { result ≡ find (names_item T.named item) self.old.list }
        ensures rest { self.new ≡ record self.old { list = filter (λ e. not (names_item T.named item e)) self.old.list } }
    {
        match self.found(item) {
            Some((index, entry)) => {
                self.remove(index);
                Some(entry)
            }
            None => None,
        }
    }
}

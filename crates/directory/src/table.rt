//! What a directory keeps of all items.

ghost use Rattle.std.specs.Prelude.{◌≡◌, ℕ, ◌<◌, length, map, replicate, slice_index_or, slice_set, IfOk};
ghost use Rattle.directory.specs.TreeModel.State.Values.{DirItem, absent_item};
ghost use Rattle.directory.specs.TreeModel.State.Directory.{is_up_read, note_why, joined_by};
ghost use Rattle.directory.specs.ItemStates.Parts.{note_of, joined_in, NamesChild};
ghost use Rattle.directory.specs.Packed.{packed_item};

use crate::of_ddm_types::{ChildNo, Hold, ItemId, NoMemory, PendingWhy};
use crate::packed::PackedItem;
use std::alloc::Global;
use std::marker::Model;

/// What a directory keeps of each item.
#[derive(Drop)]
pub struct ItemTable {
    words: Vec<u32>,
}

impl Model for ItemTable {
    ghost use Rattle.std.specs.Prelude.{List, map};
    ghost use Rattle.std.specs.List.{All};
    ghost use Rattle.directory.specs.TreeModel.State.Values.{DirItem};
    ghost use Rattle.directory.specs.Packed.{unpacked_item, IsPacked};

    ghost Value = { List DirItem };

    ghost view = { λ t. map unpacked_item t.words.items };

    ghost invariant = { λ t. All IsPacked t.words.items };
}

impl ItemTable {
    /// Each item is held so, and nothing is under way.
    pub fn new(alloc: Global, items: u32, hold: Hold) -> Result<Self, NoMemory>
        ensures { IfOk result (λ t. t ≡ replicate items (record absent_item { hold = hold })) }
    {
        let blank = PackedItem::new(hold, None, 0, false);
        let words = vec![in alloc; blank.word(); items as usize]?;
        Ok(ItemTable { words })
    }

    /// Each item is held so from now on, and nothing is under way.
    pub(crate) fn clear(&mut self, hold: Hold)
        ensures { self.new ≡ replicate (length self.old) (record absent_item { hold = hold }) }
    {
        let blank = PackedItem::new(hold, None, 0, false);
        self.words.fill(blank.word());
    }

    /// Becomes a copy of another table, of as many items.
    pub fn copy_from(&mut self, other: &Self)
        requires { length self.old ≡ length other.now }
        ensures { self.new ≡ other.now }
    {
        self.words.copy_from_slice(&other.words);
    }

    pub(crate) fn at(&self, item: ItemId) -> PackedItem
        requires { item < length self.now }
        ensures { result ≡ slice_index_or self.now item absent_item }
    {
        PackedItem::of_word(self.words[item.0 as usize])
    }

    pub(crate) fn put(&mut self, item: ItemId, kept: PackedItem)
        requires { item < length self.old }
        ensures { self.new ≡ slice_set self.old item kept }
    {
        self.words[item.0 as usize] = kept.word();
    }

    pub fn hold(&self, item: ItemId) -> Hold
        requires { item < length self.now }
        ensures { result ≡ (slice_index_or self.now item absent_item).hold }
    {
        self.at(item).hold()
    }

    pub fn note(&self, item: ItemId) -> Option<PendingWhy>
        requires { item < length self.now }
        ensures { result ≡ note_why (slice_index_or self.now item absent_item).note }
    {
        self.at(item).note()
    }

    pub fn joined(&self, item: ItemId) -> u16
        requires { item < length self.now }
        ensures { result ≡ joined_in (slice_index_or self.now item absent_item).note }
    {
        self.at(item).joined()
    }

    pub fn answering(&self, item: ItemId) -> bool
        requires { item < length self.now }
        ensures { result ≡ (slice_index_or self.now item absent_item).answering }
    {
        self.at(item).answering()
    }

    /// Whether the note is of a read that was sent up.
    pub fn is_up_read(&self, item: ItemId) -> bool
        requires { item < length self.now }
        ensures { result ≡ is_up_read (slice_index_or self.now item absent_item).note }
    {
        self.at(item).is_up_read()
    }

    pub fn set_hold(&mut self, item: ItemId, hold: Hold)
        requires { item < length self.old }
        ensures { self.new ≡ slice_set self.old item (record (slice_index_or self.old item absent_item) { hold = hold }) }
    {
        self.put(item, self.at(item).with_hold(hold));
    }

    pub fn set_note(&mut self, item: ItemId, note: Option<PendingWhy>)
        requires in_range { item < length self.old }
        requires child { NamesChild (note_of note) }
        ensures { self.new ≡ slice_set self.old item (record (slice_index_or self.old item absent_item) { note = note_of note }) }
    {
        self.put(item, self.at(item).with_note(note));
    }

    pub fn join(&mut self, item: ItemId, child: ChildNo)
        requires in_range { item < length self.old }
        requires child { child < 16 }
        ensures { self.new
            ≡ slice_set self.old item
            (record (slice_index_or self.old item absent_item)
            { note = joined_by child (slice_index_or self.old item absent_item).note }) }
    {
        self.put(item, self.at(item).with_joined(child));
    }

    pub fn set_answering(&mut self, item: ItemId, answering: bool)
        requires { item < length self.old }
        ensures { self.new ≡ slice_set self.old item (record (slice_index_or self.old item absent_item) { answering = answering }) }
    {
        self.put(item, self.at(item).with_answering(answering));
    }

    /// How many items there are.
    pub(crate) fn len(&self) -> usize
        ensures { result ≡ length self.now }
    {
        self.words.len()
    }

    /// Each item as one word.
    pub fn packed(&self) -> &[u32]
        ensures { result.now ≡ map packed_item self.now }
    {
        self.words.as_slice()
    }
}

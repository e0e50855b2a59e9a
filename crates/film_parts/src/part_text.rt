//! One part while it is written.

ghost use Rattle.std.specs.Prelude.{◌≡◌, [], ◌∷◌, ◌++◌, OnOk};
ghost use Rattle.film_model.specs.Part.{item_key_of, key_of};

use crate::of_ddm_types::NoMemory;
use crate::still::Still;
use crate::texts::{push_bytes, push_number};
use std::alloc::Global;

/// A part while it is written. Its memory is used again for the next one.
#[derive(Drop)]
pub struct PartText {
    pub(crate) key: Vec<u8>,
    pub(crate) value: Vec<u8>,
}

impl PartText {
    /// No key and no value.
    pub fn new(alloc: Global) -> PartText
        ensures key { result.key.items ≡ [] }
        ensures value { result.value.items ≡ [] }
    {
        PartText {
            key: Vec::new(alloc),
            value: Vec::new(alloc),
        }
    }

    /// Begins the part of a leaf, a bus or an item: the key is a word and its number, and the value is empty.
    #[tactic(auto, unfolding(film_model::specs::Part::key_of, film_model::specs::Part::number_text))]
    pub(crate) fn begin(&mut self, word: &[u8], number: u32) -> Result<(), NoMemory>
        ensures key { OnOk result (self.new.key.items ≡ key_of word.now number) }
        ensures value { OnOk result (self.new.value.items ≡ []) }
    {
        self.key.clear();
        self.value.clear();
        push_bytes(&mut self.key, word)?;
        push_number(&mut self.key, number)
    }

    /// Begins a part of which a leaf or a bus has several: the number of one of them follows in the key.
    #[tactic(auto, unfolding(film_model::specs::Part::item_key_of, film_model::specs::Part::number_text))]
    pub(crate) fn begin_one(&mut self, word: &[u8], number: u32, one: u32) -> Result<(), NoMemory>
        ensures key { OnOk result (self.new.key.items ≡ item_key_of word.now number one) }
        ensures value { OnOk result (self.new.value.items ≡ []) }
    {
        self.begin(word, number)?;
        push_number(&mut self.key, one)
    }

    /// Puts it after the parts of a still.
    pub(crate) fn end(&self, still: &mut Still) -> Result<(), NoMemory>
        ensures { OnOk result (still.new ≡ still.old ++ record { key = self.now.key.items; value = self.now.value.items } ∷ []) }
    {
        still.push(&self.key, &self.value)
    }
}

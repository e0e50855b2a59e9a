//! A still as it is kept: its parts, with all keys and values in one text.
ghost use Rattle.std.specs.Prelude.{◌≡◌, ◌<◌, [], ◌∷◌, ◌++◌, OnOk, length, slice_index_or, slice_set};
ghost use Rattle.film_model.specs.Part.{Part};
ghost use Rattle.film_parts.specs.Spans.{no_part};

use crate::of_ddm_types::NoMemory;
use std::alloc::Global;
use std::marker::Model;

/// Where a part is in the text of a still: where its key begins, where its key ends and its value begins, and where its value ends.
#[derive(Clone, Copy)]
pub(crate) struct PartSpan {
    key: usize,
    value: usize,
    end: usize,
}

/// Parts of what a machine has, whose keys and values lie in one text. A contract sees the list of parts.
#[derive(Drop)]
pub struct Still {
    text: Vec<u8>,
    spans: Vec<PartSpan>,
}

impl Model for Still {
    ghost use Rattle.std.specs.Prelude.{◌≡◌, List, length, map, true};
    ghost use Rattle.std.specs.List.{list_all};
    ghost use Rattle.film_model.specs.Part.{Part};
    ghost use Rattle.film_parts.specs.Spans.{is_within, part_at};

    ghost Value = { List Part };

    ghost view = { λ s. map (part_at s.text.items) s.spans.items };

    ghost invariant = { λ s. list_all (is_within (length s.text.items)) s.spans.items ≡ true };
}

impl Still {
    /// No part.
    pub fn new(alloc: Global) -> Still
        ensures { result ≡ [] }
    {
        Still {
            text: Vec::new(alloc),
            spans: Vec::new(alloc),
        }
    }

    /// Makes it have no part. Its memory stays.
    pub fn clear(&mut self)
        ensures { self.new ≡ [] }
    {
        self.spans.clear();
        self.text.clear();
    }

    /// How many parts it has.
    pub fn len(&self) -> usize
        ensures { result ≡ length self.now }
    {
        self.spans.len()
    }

    /// The key of a part, by the part's place.
    pub fn key(&self, place: usize) -> &[u8]
        requires { place < length self.now }
        ensures { result.now ≡ (slice_index_or self.now place no_part).key }
    {
        let span = self.spans[place];
        &self.text[span.key..span.value]
    }

    /// Its value.
    pub fn value(&self, place: usize) -> &[u8]
        requires { place < length self.now }
        ensures { result.now ≡ (slice_index_or self.now place no_part).value }
    {
        let span = self.spans[place];
        &self.text[span.value..span.end]
    }

    /// Puts a part after the others.
    pub fn push(&mut self, key: &[u8], value: &[u8]) -> Result<(), NoMemory>
        ensures { OnOk result (self.new ≡ self.old ++ record { key = key.now; value = value.now } ∷ []) }
    {
        let start = self.text.len();
        self.text.extend_from_slice(key)?;
        let middle = self.text.len();
        self.text.extend_from_slice(value)?;
        let end = self.text.len();
        self.spans.push(PartSpan {
            key: start,
            value: middle,
            end,
        })?;
        Ok(())
    }

    /// Puts a part in place of the one at a place. The text of that one stays in the still, unused.
    pub fn put(&mut self, place: usize, key: &[u8], value: &[u8]) -> Result<(), NoMemory>
        requires { place < length self.old }
        ensures { OnOk result (self.new ≡ slice_set self.old place (record { key = key.now; value = value.now })) }
    {
        let start = self.text.len();
        self.text.extend_from_slice(key)?;
        let middle = self.text.len();
        self.text.extend_from_slice(value)?;
        let end = self.text.len();
        self.spans[place] = PartSpan {
            key: start,
            value: middle,
            end,
        };
        Ok(())
    }
}

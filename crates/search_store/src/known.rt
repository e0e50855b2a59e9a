//! The words of the states that a search knows, in the order in which it came to them.

ghost use Rattle.std.specs.Prelude.{◌≡◌, ◌++◌, ◌∷◌, [], OnErr, OnOk, false};
ghost use Rattle.std.specs.List.{list_any};
ghost use Rattle.search_store.specs.Known.{place_of, same_words};

use ddm_types::NoMemory;
use indexmap::IndexSet;
use std::alloc::Global;
use std::marker::Model;

/// The words of states, each once. A state's number is how many were known before it.
#[derive(Drop)]
pub struct KnownStates {
    words: IndexSet<Vec<u32>>,
}

impl Model for KnownStates {
    ghost use Rattle.std.specs.Prelude.{ℕ, List, map};
    ghost use Rattle.search_store.specs.Known.{items_of};

    ghost Value = { List (List ℕ) };

    ghost view = { λ k. map items_of k.words.keys };
}

impl KnownStates {
    pub fn new(alloc: Global) -> Self
        ensures { result ≡ [] }
    {
        KnownStates {
            words: IndexSet::new(alloc),
        }
    }

    /// Whether the state with these words is known.
    pub fn has(&self, words: &[u32]) -> bool
        ensures { result ≡ list_any (same_words words.now) self.now }
    {
        self.words.contains(words)
    }

    /// The number of the state with these words.
    pub fn find(&self, words: &[u32]) -> Option<usize>
        ensures { result ≡ place_of words.now self.now }
    {
        self.words.get_index_of(words)
    }

    /// Puts the words of a state behind the others. They must be new.
    pub fn add(&mut self, words: Vec<u32>) -> Result<(), NoMemory>
        requires new { list_any (same_words words.items) self.old ≡ false }
        ensures added { OnOk result (self.new ≡ self.old ++ words.items ∷ []) }
        ensures same { OnErr result (self.new ≡ self.old) }
    {
        self.words.insert(words)?;
        Ok(())
    }
}

//! The entries of buffer and parking.

ghost use Rattle.std.specs.Prelude.{◌≡◌, replicate};
ghost use Rattle.replacement.specs.DdmTypes.declared.sizes.LeafState.{LeafState};
ghost use Rattle.replacement.specs.Arrived.{with_state, with_words};

use crate::of_ddm_types::{ItemId, LeafState, Words};
use crate::of_item_states::Named;
use std::marker::Model;

/// An entry that was moved to the buffer.
#[derive(Clone, Copy)]
pub(crate) struct BufferEntry<const WORDS: usize> {
    pub item: ItemId,
    pub state: LeafState,
    pub words: Words<WORDS>,
}

impl<const WORDS: usize> Model for BufferEntry<WORDS> {
    ghost use Rattle.replacement.specs.TreeModel.State.Values.{BufferValue};

    ghost Value = { BufferValue };

    ghost view = { λ e. record { item = e.item; state = e.state; words = e.words } };

    ghost inverse = { λ v. record { item = v.item; state = v.state; words = v.words } };
}

impl<const WORDS: usize> Named for BufferEntry<WORDS> {
    ghost named = { λ e. e.item };

    fn item(&self) -> ItemId {
        self.item
    }
}

impl<const WORDS: usize> BufferEntry<WORDS> {
    /// What fills a place until an entry comes.
    pub fn blank() -> Self
        ensures { result ≡ record { item = 0; state = LeafState.Shared; words = replicate WORDS 0 } }
    {
        BufferEntry {
            item: ItemId(0),
            state: LeafState::Shared,
            words: Words { w: [0; WORDS] },
        }
    }

    /// The entry in this state, if it is of the item.
    pub fn in_state(&self, item: ItemId, state: LeafState) -> Self
        ensures { result ≡ with_state item state self.now }
    {
        if item == self.item {
            BufferEntry {
                item,
                state,
                words: self.words,
            }
        } else {
            *self
        }
    }

    /// The entry with these words, if it is of the item.
    pub fn with_words(&self, item: ItemId, words: &Words<WORDS>) -> Self
        ensures { result ≡ with_words item words.now self.now }
    {
        if item == self.item {
            BufferEntry {
                item,
                state: self.state,
                words: *words,
            }
        } else {
            *self
        }
    }
}

/// A parked copy.
#[derive(Clone, Copy)]
pub(crate) struct ParkedCopy<const WORDS: usize> {
    pub item: ItemId,
    pub words: Words<WORDS>,
}

impl<const WORDS: usize> Model for ParkedCopy<WORDS> {
    ghost use Rattle.replacement.specs.TreeModel.State.Values.{CopyValue};

    ghost Value = { CopyValue };

    ghost view = { λ e. record { item = e.item; words = e.words } };

    ghost inverse = { λ v. record { item = v.item; words = v.words } };
}

impl<const WORDS: usize> Named for ParkedCopy<WORDS> {
    ghost named = { λ e. e.item };

    fn item(&self) -> ItemId {
        self.item
    }
}

impl<const WORDS: usize> ParkedCopy<WORDS> {
    /// What fills a place until a copy comes.
    pub fn blank() -> Self
        ensures { result ≡ record { item = 0; words = replicate WORDS 0 } }
    {
        ParkedCopy {
            item: ItemId(0),
            words: Words { w: [0; WORDS] },
        }
    }
}

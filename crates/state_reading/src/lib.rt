//! How the words of a checkpoint are read: what each part of a machine becomes, or why its words are refused, in the order in which
//! they are judged.
#![tactic(auto)]

mod numbers;
pub mod of_ddm_types;
pub mod of_item_states;
pub mod of_state_words;
mod words;

pub use numbers::{brings_copy, halt_of, hold_of, kind_of, state_of};
pub use words::{
    MOST_COUNTED, any_word, count_word, item_words, keep, look, stamp_words, word_below,
    word_from_1, word_if, word_to, words_if,
};

/// Why the words of a state are refused. Words are counted from the first one of a checkpoint.
#[derive(Clone, Copy, Debug, PartialEq, Eq)]
pub enum StateRefusal {
    /// The words end before this one.
    Cut(u32),
    /// This word can't stand there.
    BadWord(u32),
    /// The entries, the buffer and the slot of this leaf can't be together.
    BrokenLeaf(u32),
    /// A rule of this bus is broken, at this item.
    BrokenRule { bus: u32, item: u32 },
    /// A stamp in the down list over this bus is out of order.
    BrokenStamp(u32),
    /// The key of this operation, counted from 0, isn't one of its leaf.
    BrokenKey(u32),
    NoMemory,
}

//! What this crate and those above it name of `state_reading`.

pub use state_reading::{
    StateRefusal, any_word, brings_copy, count_word, halt_of, hold_of, item_words, keep, look,
    stamp_words, state_of, word_below, word_from_1, word_if, word_to, words_if,
};

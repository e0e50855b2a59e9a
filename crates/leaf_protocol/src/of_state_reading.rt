//! What this crate and those above it name of `state_reading`.

pub use replacement::of_state_reading::{
    StateRefusal, any_word, count_word, halt_of, item_words, keep, look, state_of, word_below,
    word_from_1, word_if, word_to, words_if,
};

//! What this crate and those above it name of `state_reading`.

pub use replacement::of_state_reading::{
    StateRefusal, any_word, brings_copy, count_word, hold_of, keep, look, stamp_words, word_to,
};

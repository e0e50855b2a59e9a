//! What this crate and those above it name of `state_reading`.

pub use directory::of_state_reading::{StateRefusal, count_word, stamp_words, word_to};

//! What this crate and those above it name of `state_reading`.

pub use state_reading::{
    MOST_COUNTED, StateRefusal, any_word, count_word, keep, look, word_below, word_if, word_to,
};

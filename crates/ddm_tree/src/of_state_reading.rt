//! What this crate and those above it name of `state_reading`.

pub use state_judging::of_state_reading::{
    StateRefusal, any_word, count_word, keep, look, word_below, word_if, word_to,
};

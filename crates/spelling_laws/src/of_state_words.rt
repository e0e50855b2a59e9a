//! What this crate and those above it name of `state_words`.

pub use state_judging::of_state_words::{MachineSizes, effect_words, key_words, push_words};

//! What this crate and those above it name of `state_words`.

pub use state_reading::of_state_words::{
    MachineSizes, Spelled, effect_words, key_words, push_words, traffic_words,
};

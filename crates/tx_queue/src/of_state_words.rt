//! What this crate and those above it name of `state_words`.

pub use state_reading::of_state_words::{Spelled, push_words};

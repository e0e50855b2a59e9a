//! What this crate and those above it name of `state_words`.

pub use replacement::of_state_words::{flag_number, hold_number, push_words, stamp_words};

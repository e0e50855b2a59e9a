//! What this crate and those above it name of `state_words`.

pub use directory::of_state_words::push_words;

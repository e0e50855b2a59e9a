//! What this crate and those above it name of `state_words`.

pub use replacement::of_state_words::{
    Spelled, halt_words, push_words, reserved_word, slot_number, state_number,
};

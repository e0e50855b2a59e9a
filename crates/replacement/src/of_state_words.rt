//! What this crate and those above it name of `state_words`.

pub use state_reading::of_state_words::{
    Spelled, flag_number, halt_words, hold_number, push_words, reserved_word, slot_number,
    stamp_words, state_number,
};

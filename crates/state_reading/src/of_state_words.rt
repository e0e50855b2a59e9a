//! What this crate and those above it name of `state_words`.

pub use state_words::{
    MachineSizes, Spelled, effect_words, flag_number, halt_words, hold_number, key_words,
    push_words, reserved_word, slot_number, stamp_words, state_number, traffic_words,
};

//! What this crate and those above it name of `state_words`.

pub use state_judging::of_state_words::{MachineSizes, Spelled, push_words, traffic_words};

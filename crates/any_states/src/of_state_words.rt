//! What this crate and those above it name of `state_words`.

pub use any_runs::of_state_words::MachineSizes;

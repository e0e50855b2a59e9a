//! What this crate and those above it name of `state_words`.

pub use cluster::of_state_words::MachineSizes;

//! What this crate and those above it name of `state_words`.

pub use start_parts::of_state_words::MachineSizes;

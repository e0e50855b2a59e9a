//! What this crate and those above it name of `state_words`.

pub use ddm_tree::of_state_words::MachineSizes;

//! What this crate and those above it name of `rv_hart`.

pub use ddm_tree::of_rv_hart::Hart;

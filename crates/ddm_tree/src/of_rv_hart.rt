//! What this crate and those above it name of `rv_hart`.

pub use leaf_protocol::of_rv_hart::Hart;

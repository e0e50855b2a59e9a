//! What this crate and those above it name of `leaf_protocol`.

pub use leaf_protocol::Leaf;

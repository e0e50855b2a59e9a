//! What this crate and those above it name of `leaf_protocol`.

pub use cluster::of_leaf_protocol::Leaf;

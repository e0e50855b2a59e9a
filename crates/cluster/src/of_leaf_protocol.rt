//! What this crate and those above it name of `leaf_protocol`.

pub use ddm_tree::of_leaf_protocol::Leaf;

//! What this crate and those above it name of `leaf_protocol`.

pub use start_parts::of_leaf_protocol::Leaf;

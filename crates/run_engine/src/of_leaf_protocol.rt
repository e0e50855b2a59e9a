//! What this crate and those above it name of `leaf_protocol`.

pub use any_runs::of_leaf_protocol::Leaf;

//! What this crate and those above it name of `leaf_protocol`.

pub use run_engine::of_leaf_protocol::Leaf;

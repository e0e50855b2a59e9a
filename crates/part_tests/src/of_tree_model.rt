//! What this crate and those above it name of `tree_model`.

pub use leaf_protocol::of_tree_model::LeafSpot;

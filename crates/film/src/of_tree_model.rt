//! What this crate and those above it name of `tree_model`.

pub use tree_model::LeafSpot;

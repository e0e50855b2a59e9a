//! What this crate and those above it name of `tree_model`.

pub use cluster::of_tree_model::{CopyPlace, DirLengths, LeafLengths, LeafSpot, Traffic};

//! What this crate and those above it name of `tree_model`.

pub use inspector::of_tree_model::{DirLengths, LeafLengths, Traffic};

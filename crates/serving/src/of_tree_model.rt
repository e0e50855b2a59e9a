//! What this crate and those above it name of `tree_model`.

pub use serving_walk::of_tree_model::TreeChild;

//! What this crate and those above it name of `tree_model`.

pub use headline::of_tree_model::TreeChild;

//! What this crate and those above it name of `tree_model`.

pub use text_model::of_tree_model::CopyPlace;

//! What this crate and those above it name of `tree_model`.

pub use directory::of_tree_model::DirLengths;

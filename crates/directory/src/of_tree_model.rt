//! What this crate and those above it name of `tree_model`.

pub use bus_judging::of_tree_model::DirLengths;

//! What this crate and those above it name of `tree_model`.

pub use item_states::of_tree_model::Traffic;

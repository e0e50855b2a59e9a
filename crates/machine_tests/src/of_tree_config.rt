//! What this crate and those above it name of `tree_config`.

pub use run_engine::of_tree_config::{TreeConfig, read_tree};

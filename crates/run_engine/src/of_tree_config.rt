//! What this crate and those above it name of `tree_config`.

pub use tree_config::{Shape, TreeConfig, TreeKey, TreeRefusal, read_tree};

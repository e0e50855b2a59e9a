//! What this crate and those above it name of `tree_config`.

pub use schedule_log::of_tree_config::{Shape, TreeKey, TreeRefusal, read_tree};

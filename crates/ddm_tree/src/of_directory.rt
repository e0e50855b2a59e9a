//! What this crate and those above it name of `directory`.

pub use top_node::of_directory::{DirState, JudgedParent, brings_copy};

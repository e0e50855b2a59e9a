//! What this crate and those above it name of `directory`.

pub use ddm_tree::of_directory::brings_copy;

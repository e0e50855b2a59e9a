//! What this crate and those above it name of `directory`.

pub use cluster::of_directory::brings_copy;

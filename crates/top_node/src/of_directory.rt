//! What this crate and those above it name of `directory`.

pub use directory::{DirState, JudgedParent, brings_copy};

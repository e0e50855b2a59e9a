//! What this crate and those above it name of `directory`.

pub use start_parts::of_directory::brings_copy;

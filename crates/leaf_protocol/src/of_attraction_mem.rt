//! What this crate and those above it name of `attraction_mem`.

pub use attraction_mem::{AttractionMem, SetFull};

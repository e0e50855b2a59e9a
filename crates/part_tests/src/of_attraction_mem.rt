//! What this crate and those above it name of `attraction_mem`.

pub use leaf_protocol::of_attraction_mem::{AttractionMem, SetFull};

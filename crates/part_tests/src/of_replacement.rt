//! What this crate and those above it name of `replacement`.

pub use leaf_protocol::of_replacement::{Buffer, Full, Parking};

//! What this crate and those above it name of `replacement`.

pub use replacement::{Buffer, Full, Parking};

//! What this crate and those above it name of `recording`.

pub use measuring::of_recording::{SeedKind, record_text};

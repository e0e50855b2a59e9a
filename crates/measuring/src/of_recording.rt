//! What crates above this one name of `recording`.

pub use recording::{Recorder, RunEnd, SeedKind, record_text};

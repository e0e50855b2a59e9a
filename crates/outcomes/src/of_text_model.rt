//! What this crate and those above it name of `text_model`.

pub use measuring::of_text_model::{RunCounts, ScheduleRefusal};

//! What crates above this one name of `text_model`.

pub use any_runs::of_text_model::{RunCounts, ScheduleRefusal};

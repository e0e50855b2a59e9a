//! What crates above this one name of `text_model`.

pub use recording::of_text_model::{RunCounts, ScheduleRefusal};

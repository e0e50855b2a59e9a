//! What this crate and those above it name of `schedule_log`.

pub use outcomes::of_schedule_log::{FeedError, ScheduleReader, ScheduleRefusal, SeededTurns};

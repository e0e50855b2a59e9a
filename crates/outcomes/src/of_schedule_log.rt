//! What this crate and those above it name of `schedule_log`.

pub use schedule_log::{FeedError, ScheduleReader, ScheduleRefusal, SeededTurns};

//! Why a piece of a schedule isn't read to its end.

use text_model::ScheduleRefusal;

/// Why a piece of a schedule's text isn't read to its end.
#[derive(Clone, Copy, Debug, PartialEq, Eq)]
pub enum FeedError {
    /// The line, counted from 1, and why it is refused.
    Refused(u32, ScheduleRefusal),
    NoMemory,
}

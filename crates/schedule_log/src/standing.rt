//! How far a schedule has been read.

ghost use Rattle.std.specs.Prelude.{◌≡◌, ℕ};
ghost use Rattle.schedule_log.specs.Reader.{answer_of};
ghost use Rattle.schedule_log.specs.Standings.{standing_of};

use crate::refusal::FeedError;
use text_model::ScheduleRefusal;

/// How far a text has come: in a line that isn't whole, at its end, or refused in a line. The line behind the turns so
/// far has their number and one, so it is kept only where it may be another.
#[derive(Clone, Copy)]
pub(crate) enum Standing {
    InLine,
    AtEnd,
    Refused(u32, ScheduleRefusal),
}

impl Standing {
    /// What the call answers that comes so far.
    pub(crate) fn answer(self) -> Result<(), FeedError>
        ensures { (lines : ℕ) → result ≡ answer_of (standing_of lines self) }
    {
        match self {
            Standing::InLine => Ok(()),
            Standing::AtEnd => Ok(()),
            Standing::Refused(line, refusal) => Err(FeedError::Refused(line, refusal)),
        }
    }
}

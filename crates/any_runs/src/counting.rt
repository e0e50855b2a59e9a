//! Counts of what the turns of a run came to.

ghost use Rattle.std.specs.Prelude.{◌≡◌};
ghost use Rattle.text_model.specs.Run.{counted_answer, no_counts};
ghost use Rattle.any_runs.specs.Run.{AreBelow};

use crate::of_ddm_types::TurnAnswer;
use text_model::RunCounts;

/// Before the first turn.
pub fn no_counts() -> RunCounts
    ensures { result ≡ no_counts }
{
    RunCounts {
        turns: 0,
        retired: 0,
        granted: 0,
        busy: 0,
    }
}

/// One answer more. No branch depends on what it is.
#[inline(always)]
pub fn count(counts: &mut RunCounts, answer: &TurnAnswer)
    requires { AreBelow 4294967295 counts.old }
    ensures { counts.new ≡ counted_answer answer.now counts.old }
{
    counts.turns += 1;
    let (retired, granted, busy) = match answer {
        TurnAnswer::Retired(_) => (1, 0, 0),
        TurnAnswer::Granted(_) => (0, 1, 0),
        TurnAnswer::Busy(_) => (0, 0, 1),
        _ => (0, 0, 0),
    };
    counts.retired += retired;
    counts.granted += granted;
    counts.busy += busy;
}

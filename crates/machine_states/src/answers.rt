//! What the answer of a turn says of it.

ghost use Rattle.std.specs.Prelude.{◌≡◌};
ghost use Rattle.outcomes.specs.RecordingModel.Doing.{does_by};
ghost use Rattle.explorer.specs.SearchModel.Tried.{is_quiet_answer, is_quiet_effect};

use ddm_types::{Effect, TurnAnswer};

/// Whether a turn that answers so does something, where its hart had halted before or not.
pub(crate) fn does(answer: &TurnAnswer, halted: bool) -> bool
    ensures { result ≡ does_by answer.now halted }
{
    match answer {
        TurnAnswer::Retired(_) | TurnAnswer::Issued(..) | TurnAnswer::Granted(_) => true,
        TurnAnswer::Halted(_) => !halted,
        TurnAnswer::Waiting(_) | TurnAnswer::Empty | TurnAnswer::Busy(_) => false,
    }
}

fn is_quiet_effect(effect: &Effect) -> bool
    ensures { result ≡ is_quiet_effect effect.now }
{
    matches!(
        effect,
        Effect::Plain | Effect::Put { .. } | Effect::ScFail { .. }
    )
}

/// Whether the turn of a hart that answers so is quiet.
pub(crate) fn is_quiet(answer: &TurnAnswer, halted: bool) -> bool
    ensures { result ≡ is_quiet_answer answer.now halted }
{
    match answer {
        TurnAnswer::Retired(op) => is_quiet_effect(&op.effect),
        TurnAnswer::Halted(_) => !halted,
        _ => false,
    }
}

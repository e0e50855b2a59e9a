//! Turns are made, and added to a schedule.

ghost use Rattle.std.specs.Prelude.{◌≡◌, ◌+◌, ◌<◌, ◌≤◌, ◌++◌, IfErr, true, length, All, OnOk};
ghost use Rattle.serving.specs.TreeModel.Turns.Machine.{names_part, run_of};
ghost use Rattle.serving.specs.declared.refusal.Stop.TheVariants.{TooMany};

use crate::refusal::Stop;
use crate::server::Server;
use ddm_types::{Turn, TurnAnswer};

/// The most turns of a schedule.
const MOST_TURNS: usize = 1_048_576;

/// Makes turns and adds them to those that were made, if that isn't too many.
pub(crate) fn add<S: Server>(
    server: &mut S,
    more: &[Turn],
    turns: &mut Vec<Turn>,
    answers: &mut Vec<TurnAnswer>,
) -> Result<(), Stop>
    requires named { All (λ t. names_part t (S.value server.old) ≡ true) more.now }
    requires few { length turns.old.items ≤ 1048576 }
    requires made { S.made server.old ≡ length turns.old.items }
    ensures after { OnOk result (S.value server.new ≡ (run_of more.now (S.value server.old)).machine) }
    ensures turns { OnOk result (turns.new.items ≡ turns.old.items ++ more.now) }
    ensures answers { OnOk result
        (answers.new.items ≡ answers.old.items ++ (run_of more.now (S.value server.old)).answers) }
    ensures few { OnOk result (length turns.new.items ≤ 1048576) }
    ensures made { OnOk result (S.made server.new ≡ length turns.new.items) }
    ensures many { IfErr result (λ stop. stop ≡ TooMany → 1048576 < length turns.old.items + length more.now) }
{
    if more.len() > MOST_TURNS - turns.len() {
        return Err(Stop::TooMany);
    }
    if turns.extend_from_slice(more).is_err() {
        return Err(Stop::NoMemory);
    }
    match server.make(more, answers) {
        Ok(()) => Ok(()),
        Err(_) => Err(Stop::NoMemory),
    }
}

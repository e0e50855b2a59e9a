//! The film of a run: the head, the still before the first turn, the turns and the report.

ghost use Rattle.std.specs.Prelude.{◌≡◌, IfOk, OnOk, length};
ghost use Rattle.film_runs.specs.AnyMachine.Any.{machine_state};
ghost use Rattle.film_runs.specs.AnyRuns.Run.{CanRun, NameParts};
ghost use Rattle.film_runs.specs.Film.Filmed.{IsFilmed};
ghost use Rattle.film_runs.specs.TreeModel.State.Shape.{IsShaped, depth_of};
ghost use Rattle.film_runs.specs.TreeModel.Turns.Machine.{run_of};
ghost use Rattle.film_runs.specs.FilmModel.Film.{film_of};

use crate::heads::push_head;
use crate::of_any_machine::AnyMachine;
use crate::of_ddm_types::{NoMemory, Turn};
use crate::turns::{Reel, film_turns};
use film::push_valued;
use report::report_text;
use std::alloc::Global;
use tree_config::TreeConfig;

/// Makes turns in order on a machine of a tree, and gives their film. Of each bus it is said how many buses are above it.
pub fn film_text(
    alloc: Global,
    tree: &TreeConfig,
    levels: &[u32],
    machine: &mut AnyMachine,
    turns: &[Turn],
) -> Result<Vec<u8>, NoMemory>
    requires depth { depth_of (machine_state machine.old).machine ≡ length tree.now.levels }
    requires shape { IsShaped (machine_state machine.old).machine }
    requires filmed { IsFilmed levels.now (machine_state machine.old).machine }
    requires named { NameParts turns.now (machine_state machine.old).machine }
    requires few { CanRun turns.now (machine_state machine.old) }
    ensures text { IfOk result (λ text. text.items ≡ film_of tree.now turns.now (machine_state machine.old).machine) }
    ensures machine { OnOk result ((machine_state machine.new).machine ≡ (run_of turns.now (machine_state machine.old).machine).machine) }
{
    let mut text = Vec::new(alloc);
    push_head(&mut text, tree, machine)?;
    let mut reel = Reel::new(alloc);
    reel.begin(machine, levels)?;
    push_valued(&mut text, &reel.before)?;
    let counts = film_turns(&mut text, &mut reel, machine, levels, turns)?;
    let report = report_text(alloc, machine, counts)?;
    text.extend_from_slice(&report)?;
    Ok(text)
}

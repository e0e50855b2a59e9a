//! The page of a run: its film in the page.

ghost use Rattle.std.specs.Prelude.{◌≡◌, IfOk};
ghost use Rattle.film_runs.specs.AnyMachine.Any.{machine_state};
ghost use Rattle.film_runs.specs.AnyRuns.Run.{CanRun, NameParts};
ghost use Rattle.film_runs.specs.Paged.{IsFirst, page_of};

use crate::films::film_text;
use crate::levels::push_levels;
use crate::of_any_machine::AnyMachine;
use crate::of_ddm_types::{NoMemory, Turn};
use page_bytes::{push_back, push_front};
use std::alloc::Global;
use tree_config::TreeConfig;

/// Makes turns in order on a machine of a tree before its first turn, and gives their page.
pub fn page_text(
    alloc: Global,
    tree: &TreeConfig,
    machine: &mut AnyMachine,
    turns: &[Turn],
) -> Result<Vec<u8>, NoMemory>
    requires first { IsFirst tree.now (machine_state machine.old).machine }
    requires named { NameParts turns.now (machine_state machine.old).machine }
    requires few { CanRun turns.now (machine_state machine.old) }
    ensures { IfOk result (λ text. text.items ≡ page_of tree.now turns.now (machine_state machine.old).machine) }
{
    let mut levels = Vec::new(alloc);
    push_levels(&mut levels, tree)?;
    let film = film_text(alloc, tree, &levels, machine, turns)?;
    let mut text = Vec::new(alloc);
    push_front(&mut text)?;
    text.extend_from_slice(&film)?;
    push_back(&mut text)?;
    Ok(text)
}

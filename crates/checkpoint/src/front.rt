//! The head of a checkpoint.

ghost use Rattle.std.specs.Prelude.{◌≡◌, length, IfOk, OnOk};
ghost use Rattle.checkpoint.specs.DdmText.Adds.{Adds};
ghost use Rattle.checkpoint.specs.StateWords.Machine.{head_words};
ghost use Rattle.checkpoint.specs.AnyMachine.Any.{machine_state};
ghost use Rattle.checkpoint.specs.PiecesLeft.{front_words};

use crate::of_any_machine::AnyMachine;
use crate::of_ddm_types::NoMemory;
use crate::of_state_words::{MachineSizes, push_words};
use crate::of_text_model::RunCounts;
use any_states::{sizes, write_tree};
use std::alloc::Global;

/// The name of the format, `DDMC`, and its version.
const NAME: u32 = 0x434d_4444;

const VERSION: u32 = 1;

/// Puts the first words at the end: the format, what the machine is, and what its turns came to.
fn push_head(out: &mut Vec<u32>, sizes: MachineSizes, counts: RunCounts) -> Result<(), NoMemory>
    ensures { OnOk result (Adds out.old.items out.new.items (head_words sizes counts.turns counts.retired counts.granted counts.busy)) }
{
    push_words(
        out,
        &[NAME, VERSION, sizes.leaves, sizes.buses, sizes.items],
    )?;
    push_words(out, &[sizes.item_words, sizes.ways])?;
    push_words(
        out,
        &[counts.turns, counts.retired, counts.granted, counts.busy],
    )?;
    Ok(())
}

/// The words before those of the operations.
pub(crate) fn front_of(
    alloc: Global,
    machine: &AnyMachine,
    counts: RunCounts,
) -> Result<Vec<u32>, NoMemory>
    requires { counts.retired ≡ length (machine_state machine.now).machine.ops }
    ensures { IfOk result (λ words. words.items ≡ front_words (machine_state machine.now).machine counts) }
{
    let mut words = Vec::new(alloc);
    push_head(&mut words, sizes(machine), counts)?;
    write_tree(machine, &mut words)?;
    push_words(&mut words, &[counts.retired])?;
    Ok(words)
}

//! A checkpoint as a whole.

ghost use Rattle.std.specs.Prelude.{◌≡◌, length, IfOk};
ghost use Rattle.checkpoint.specs.AnyMachine.Any.{machine_state};
ghost use Rattle.checkpoint.specs.Saved.{saved};

use crate::of_any_machine::AnyMachine;
use crate::of_ddm_types::NoMemory;
use crate::of_text_model::RunCounts;
use crate::pieces::CheckpointPieces;
use report::joined;
use std::alloc::Global;

/// The checkpoint of a machine whose turns so far came to these counts.
pub fn save(alloc: Global, machine: &AnyMachine, counts: RunCounts) -> Result<Vec<u8>, NoMemory>
    requires { counts.retired ≡ length (machine_state machine.now).machine.ops }
    ensures { IfOk result (λ bytes. bytes.items ≡ saved (machine_state machine.now).machine counts) }
{
    let mut pieces = CheckpointPieces::new(alloc, machine, counts)?;
    joined(alloc, &mut pieces)
}

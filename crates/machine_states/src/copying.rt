//! A machine becomes a copy of another one, with room for operations.

ghost use Rattle.std.specs.Prelude.{◌≡◌, ◌+◌, ◌≤◌, OnErr, OnOk, length};
ghost use Rattle.tree_model.specs.State.Shape.{frame_of};
ghost use Rattle.any_runs.specs.AnyMachine.Any.{machine_state};
ghost use Rattle.any_runs.specs.AnyMachine.Kind.{kind_of};

use any_runs::of_any_machine::AnyMachine;
use any_runs::{copy_from, reserve};
use ddm_types::NoMemory;

/// The machine becomes a copy of another one of the same tree, code and items, with room for so many operations in all.
pub(crate) fn copy_roomy(
    machine: &mut AnyMachine,
    other: &AnyMachine,
    count: u32,
) -> Result<(), NoMemory>
    requires kind { kind_of machine.old ≡ kind_of other.now }
    requires frame { frame_of (machine_state machine.old).machine ≡ frame_of (machine_state other.now).machine }
    requires few { length (machine_state other.now).machine.ops ≤ count }
    ensures copied { OnOk result ((machine_state machine.new).machine ≡ (machine_state other.now).machine) }
    ensures turns { OnOk result ((machine_state machine.new).turns ≡ (machine_state other.now).turns) }
    ensures room { OnOk result
        (count ≤ length (machine_state machine.new).machine.ops + (machine_state machine.new).spare) }
    ensures same { OnErr result ((machine_state machine.new).machine ≡ (machine_state machine.old).machine) }
    ensures same_turns { OnErr result ((machine_state machine.new).turns ≡ (machine_state machine.old).turns) }
    ensures kind { kind_of machine.new ≡ kind_of machine.old }
{
    reserve(machine, count)?;
    copy_from(machine, other);
    Ok(())
}

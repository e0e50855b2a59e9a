//! The lengths of a machine's lists before a run.

ghost use Rattle.std.specs.Prelude.{◌≡◌, IfOk, map};
ghost use Rattle.std.specs.List.{range_with_len};
ghost use Rattle.recording.specs.AnyMachine.Any.{machine_state};
ghost use Rattle.recording_model.specs.TreeModel.State.Shape.{tree_counts};
ghost use Rattle.measure_model.specs.Lengths.{lengths_in, lengths_over};

use ddm_types::{BusNo, LeafNo, NoMemory};
use recording::of_any_machine::AnyMachine;
use std::alloc::Global;
use tree_model::{DirLengths, LeafLengths};

/// Those over each bus.
pub(crate) fn first_over(alloc: Global, machine: &AnyMachine) -> Result<Vec<DirLengths>, NoMemory>
    ensures { IfOk result
        (λ most. most.items
        ≡ map (λ b. lengths_over b (machine_state machine.now).machine)
        (range_with_len 0 (tree_counts (machine_state machine.now).machine).buses)) }
{
    let mut most = Vec::new(alloc);
    for bus in 0..machine.counts().buses {
        most.push(machine.list_lengths(BusNo(bus)))?;
    }
    Ok(most)
}

/// And those of each leaf.
pub(crate) fn first_in(alloc: Global, machine: &AnyMachine) -> Result<Vec<LeafLengths>, NoMemory>
    ensures { IfOk result
        (λ most. most.items
        ≡ map (λ k. lengths_in k (machine_state machine.now).machine)
        (range_with_len 0 (tree_counts (machine_state machine.now).machine).leaves)) }
{
    let mut most = Vec::new(alloc);
    for leaf in 0..machine.counts().leaves {
        most.push(machine.leaf_lengths(LeafNo(leaf)))?;
    }
    Ok(most)
}

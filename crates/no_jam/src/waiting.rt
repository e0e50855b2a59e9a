//! Whether a leaf waits.

ghost use Rattle.std.specs.Prelude.{◌≡◌, ◌<◌, Some};
ghost use Rattle.no_jam.specs.TreeModel.State.Shape.{tree_counts};
ghost use Rattle.no_jam.specs.TreeRules.Bus.Own.{state_waits};
ghost use Rattle.any_machine.specs.Any.{machine_state};
ghost use Rattle.jam_laws.specs.GoesOn.{some_leaf_waits};
ghost use Rattle.no_jam.specs.Waits.{waits_of};

use crate::of_ddm_types::{ItemId, LeafNo, LeafState};
use any_machine::AnyMachine;

/// Whether an entry in this state waits for a transaction.
fn state_waits(state: Option<LeafState>) -> bool
    ensures { result ≡ state_waits state }
{
    match state {
        Some(LeafState::Waiting | LeafState::Reading | LeafState::ReadingWaiting) => true,
        Some(LeafState::Shared | LeafState::Exclusive) | None => false,
    }
}

/// Whether an entry of a leaf waits.
fn leaf_waits(machine: &AnyMachine, leaf: LeafNo) -> bool
    requires { leaf < (tree_counts (machine_state machine.now).machine).leaves }
    ensures { Some result ≡ waits_of leaf (machine_state machine.now).machine }
{
    // The shape and the rules that every machine keeps, by which a leaf has a number and entries of items alone.
    machine.counts();
    let items = machine.items().len();
    for item in 0..items {
        if state_waits(machine.state(ItemId(item), leaf)) {
            return true;
        }
    }
    false
}

/// Whether a leaf waits.
pub fn some_leaf_waits(machine: &AnyMachine) -> bool
    ensures { result ≡ some_leaf_waits (machine_state machine.now).machine }
{
    let leaves = machine.counts().leaves;
    for leaf in 0..leaves {
        if leaf_waits(machine, LeafNo(leaf)) {
            return true;
        }
    }
    false
}

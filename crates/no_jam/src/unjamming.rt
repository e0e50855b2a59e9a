//! The turn that goes on where a leaf waits.

ghost use Rattle.std.specs.Prelude.{◌≡◌, None, IfSome, true, false};
ghost use Rattle.any_machine.specs.Any.{machine_state};
ghost use Rattle.jam_laws.specs.GoesOn.{IsFirstGranted, has_large_lists, some_leaf_waits, unjamming_turn};

use crate::of_ddm_types::Turn;
use crate::search::first_granted;
use crate::waiting::some_leaf_waits;
use any_machine::AnyMachine;

/// The turn that goes on where a leaf waits, which there always is: the first that would be granted, buses by number, and on a bus
/// Down, then Reply by child, then Request by child. It takes no memory.
pub fn unjam(machine: &AnyMachine) -> Option<Turn>
    requires large { has_large_lists (machine_state machine.now).machine ≡ true }
    ensures turn { result ≡ unjamming_turn (machine_state machine.now).machine }
    ensures first { IfSome result (IsFirstGranted (machine_state machine.now).machine) }
    ensures none { result ≡ None → some_leaf_waits (machine_state machine.now).machine ≡ false }
    ensures none_waits { some_leaf_waits (machine_state machine.now).machine ≡ false → result ≡ None }
{
    // The shape and the rules that every machine keeps, by which some bus goes on.
    machine.counts();
    if some_leaf_waits(machine) {
        first_granted(machine)
    } else {
        None
    }
}

//! How a machine of any tree is let go.

use crate::machine::{AnyMachine, Depths, Machines};
use crate::of_ddm_tree::{Dir, Machine, Subtree};

fn release_machine<const WORDS: usize, C: Subtree<WORDS> + Drop>(machine: Machine<WORDS, C>) {
    drop(machine);
}

// The same over children of bus 0 that are directories: a check of three types within one another is beyond its limits.
fn release_over<const WORDS: usize, C: Subtree<WORDS> + Drop>(
    machine: Machine<WORDS, Dir<WORDS, C>>,
) {
    drop(machine);
}

fn release_depths<const WAYS: usize, const WORDS: usize>(machine: Depths<WAYS, WORDS>) {
    match machine {
        Depths::OneLevel(machine) => release_machine(machine),
        Depths::TwoLevels(machine) => release_machine(machine),
        Depths::ThreeLevels(machine) => release_over(machine),
        Depths::FourLevels(machine) => release_over(machine),
    }
}

fn release_machines<const WORDS: usize>(machines: Machines<WORDS>) {
    match machines {
        Machines::OneWay(machine) => release_depths(machine),
        Machines::TwoWays(machine) => release_depths(machine),
        Machines::FourWays(machine) => release_depths(machine),
    }
}

/// Lets a machine go. The drop that is made for the type itself can't be proved, for the same reason.
pub fn release(machine: AnyMachine) {
    match machine {
        AnyMachine::Narrow(machines) => release_machines(machines),
        AnyMachine::Wide(machines) => release_machines(machines),
    }
}

//! The words of a state are read into a machine of any tree.

ghost use Rattle.std.specs.Prelude.{◌≡◌, ◌≢◌, ◌<◌, ◌≤◌, ◌^◌, Ok, Err, drop, length, slice_index, IfErr, IfOk};
ghost use Rattle.any_states.specs.TreeModel.State.Shape.{frame_of};
ghost use Rattle.any_states.specs.StateReading.declared.StateRefusal.TheVariants.{NoMemory};
ghost use Rattle.any_states.specs.StateJudging.Judged.{read_state};
ghost use Rattle.any_states.specs.AnyMachine.Any.{depths_state, machine_state, state_in};
ghost use Rattle.any_states.specs.AnyMachine.Kind.{kind_in, kind_of, levels_in};

use crate::of_any_machine::{AnyMachine, Depths, Machines};
use crate::of_ddm_tree::{Dir, Machine, Subtree};
use crate::of_state_reading::StateRefusal;
use std::alloc::Global;

// Over children of bus 0 that are directories: a check of three types within one another is beyond its limits.
fn read_over<const WORDS: usize, C: Subtree<WORDS> + Drop>(
    alloc: Global,
    fresh: Machine<WORDS, Dir<WORDS, C>>,
    words: &[u32],
    from: u32,
) -> Result<(Machine<WORDS, Dir<WORDS, C>>, u32), StateRefusal>
    requires few { length words.now < 2 ^ 32 }
    requires head { 8 < length words.now }
    requires inside { from ≤ length words.now }
    ensures read { IfOk result
        (λ r. read_state fresh.machine (slice_index words.now 8) from (drop from words.now)
        ≡ Ok (record { value = r.0.machine; at = r.1; rest = drop r.1 words.now })) }
    ensures refused { IfErr result
        (λ e. e ≢ NoMemory →
        read_state fresh.machine (slice_index words.now 8) from (drop from words.now) ≡ Err e) }
    ensures frame { IfOk result (λ r. frame_of r.0.machine ≡ frame_of fresh.machine) }
    ensures spare { IfOk result (λ r. r.0.spare ≡ 0) }
    ensures turns { IfOk result (λ r. r.0.turns ≡ 1048576) }
{
    Machine::read_state(alloc, fresh, words, from)
}

fn read_depths<const WAYS: usize, const WORDS: usize>(
    alloc: Global,
    fresh: Depths<WAYS, WORDS>,
    words: &[u32],
    from: u32,
) -> Result<(Depths<WAYS, WORDS>, u32), StateRefusal>
    requires few { length words.now < 2 ^ 32 }
    requires head { 8 < length words.now }
    requires inside { from ≤ length words.now }
    ensures read { IfOk result
        (λ r. read_state (depths_state fresh.entry).machine (slice_index words.now 8) from (drop from words.now)
        ≡ Ok (record { value = (depths_state r.0).machine; at = r.1; rest = drop r.1 words.now })) }
    ensures refused { IfErr result
        (λ e. e ≢ NoMemory →
        read_state (depths_state fresh.entry).machine (slice_index words.now 8) from (drop from words.now)
        ≡ Err e) }
    ensures frame { IfOk result (λ r. frame_of (depths_state r.0).machine ≡ frame_of (depths_state fresh.entry).machine) }
    ensures spare { IfOk result (λ r. (depths_state r.0).spare ≡ 0) }
    ensures turns { IfOk result (λ r. (depths_state r.0).turns ≡ 1048576) }
    ensures kind { IfOk result (λ r. levels_in r.0 ≡ levels_in fresh.entry) }
{
    match fresh {
        Depths::OneLevel(fresh) => {
            let (machine, at) = Machine::read_state(alloc, fresh, words, from)?;
            Ok((Depths::OneLevel(machine), at))
        }
        Depths::TwoLevels(fresh) => {
            let (machine, at) = Machine::read_state(alloc, fresh, words, from)?;
            Ok((Depths::TwoLevels(machine), at))
        }
        Depths::ThreeLevels(fresh) => {
            let (machine, at) = read_over(alloc, fresh, words, from)?;
            Ok((Depths::ThreeLevels(machine), at))
        }
        Depths::FourLevels(fresh) => {
            let (machine, at) = read_over(alloc, fresh, words, from)?;
            Ok((Depths::FourLevels(machine), at))
        }
    }
}

fn read_machines<const WORDS: usize>(
    alloc: Global,
    fresh: Machines<WORDS>,
    words: &[u32],
    from: u32,
) -> Result<(Machines<WORDS>, u32), StateRefusal>
    requires few { length words.now < 2 ^ 32 }
    requires head { 8 < length words.now }
    requires inside { from ≤ length words.now }
    ensures read { IfOk result
        (λ r. read_state (state_in fresh.entry).machine (slice_index words.now 8) from (drop from words.now)
        ≡ Ok (record { value = (state_in r.0).machine; at = r.1; rest = drop r.1 words.now })) }
    ensures refused { IfErr result
        (λ e. e ≢ NoMemory →
        read_state (state_in fresh.entry).machine (slice_index words.now 8) from (drop from words.now) ≡ Err e) }
    ensures frame { IfOk result (λ r. frame_of (state_in r.0).machine ≡ frame_of (state_in fresh.entry).machine) }
    ensures spare { IfOk result (λ r. (state_in r.0).spare ≡ 0) }
    ensures turns { IfOk result (λ r. (state_in r.0).turns ≡ 1048576) }
    ensures kind { IfOk result (λ r. kind_in r.0 ≡ kind_in fresh.entry) }
{
    match fresh {
        Machines::OneWay(fresh) => {
            let (machine, at) = read_depths(alloc, fresh, words, from)?;
            Ok((Machines::OneWay(machine), at))
        }
        Machines::TwoWays(fresh) => {
            let (machine, at) = read_depths(alloc, fresh, words, from)?;
            Ok((Machines::TwoWays(machine), at))
        }
        Machines::FourWays(fresh) => {
            let (machine, at) = read_depths(alloc, fresh, words, from)?;
            Ok((Machines::FourWays(machine), at))
        }
    }
}

/// Reads the words of a state into a machine before its first turn, and judges it: the machine, and the number of the word behind the
/// end word. Word 8 says how many instructions were completed. The machine has no room for operations, and counts as one that made
/// as many turns as a schedule can have.
pub fn read_state(
    alloc: Global,
    fresh: AnyMachine,
    words: &[u32],
    from: u32,
) -> Result<(AnyMachine, u32), StateRefusal>
    requires few { length words.now < 2 ^ 32 }
    requires head { 8 < length words.now }
    requires inside { from ≤ length words.now }
    ensures ok { IfOk result
        (λ r. read_state (machine_state fresh).machine (slice_index words.now 8) from (drop from words.now)
        ≡ Ok (record { value = (machine_state r.0).machine; at = r.1; rest = drop r.1 words.now })) }
    ensures refused { IfErr result
        (λ e. e ≢ NoMemory →
        read_state (machine_state fresh).machine (slice_index words.now 8) from (drop from words.now) ≡ Err e) }
    ensures frame { IfOk result (λ r. frame_of (machine_state r.0).machine ≡ frame_of (machine_state fresh).machine) }
    ensures spare { IfOk result (λ r. (machine_state r.0).spare ≡ 0) }
    ensures turns { IfOk result (λ r. (machine_state r.0).turns ≡ 1048576) }
    ensures kind { IfOk result (λ r. kind_of r.0 ≡ kind_of fresh) }
{
    match fresh {
        AnyMachine::Narrow(fresh) => {
            let (machines, at) = read_machines(alloc, fresh, words, from)?;
            Ok((AnyMachine::Narrow(machines), at))
        }
        AnyMachine::Wide(fresh) => {
            let (machines, at) = read_machines(alloc, fresh, words, from)?;
            Ok((AnyMachine::Wide(machines), at))
        }
    }
}

//! What a machine's harts ended with and put out.

ghost use Rattle.std.specs.Prelude.{◌≡◌, ◌<◌, None, OnOk};
ghost use Rattle.outcomes.specs.DdmText.Adds.{Adds};
ghost use Rattle.outcomes.specs.AnyMachine.Any.{machine_state, state_in};
ghost use Rattle.outcome_model.specs.Halted.{all_halted};
ghost use Rattle.outcome_model.specs.Outcome.{end_text, outcome_of};

use crate::of_any_machine::{AnyMachine, Machines};
use crate::of_ddm_types::{HaltCause, HartNo, NoMemory};
use crate::of_operation_list::Operations;
use measuring::of_report::{push_bytes, push_number, push_output, push_state};

fn have_halted<const WORDS: usize>(machine: &Machines<WORDS>) -> bool
    ensures { result ≡ all_halted (state_in machine.now).machine }
{
    for leaf in 0..machine.counts().leaves {
        let hart = machine.hart(HartNo(leaf));
        if hart.halted().is_none() {
            return false;
        }
    }
    true
}

/// Whether every hart of the machine has halted.
pub fn all_halted(machine: &AnyMachine) -> bool
    ensures { result ≡ all_halted (machine_state machine.now).machine }
{
    match machine {
        AnyMachine::Narrow(machine) => have_halted(machine),
        AnyMachine::Wide(machine) => have_halted(machine),
    }
}

// How a hart stands and what it has put out.
#[tactic(auto, unfolding(outcome_model::specs::Outcome::end_text))]
fn push_end(
    out: &mut Vec<u8>,
    hart: HartNo,
    halt: Option<HaltCause>,
    ops: &Operations,
) -> Result<(), NoMemory>
    ensures { OnOk result (Adds out.old.items out.new.items (end_text ops.now.items (record { number = hart; halt = halt }))) }
{
    push_bytes(out, b" hart ")?;
    push_number(out, hart.0)?;
    push_bytes(out, b" ")?;
    push_state(out, halt)?;
    push_bytes(out, b" out ")?;
    push_output(out, hart, ops)?;
    Ok(())
}

fn push_ends<const WORDS: usize>(
    out: &mut Vec<u8>,
    machine: &Machines<WORDS>,
) -> Result<(), NoMemory>
    ensures { OnOk result (Adds out.old.items out.new.items (outcome_of (state_in machine.now).machine)) }
{
    for leaf in 0..machine.counts().leaves {
        let number = HartNo(leaf);
        let hart = machine.hart(number);
        push_end(out, number, hart.halted(), machine.ops())?;
    }
    Ok(())
}

/// Puts the outcome of the machine at the end.
pub fn push_outcome(out: &mut Vec<u8>, machine: &AnyMachine) -> Result<(), NoMemory>
    ensures { OnOk result (Adds out.old.items out.new.items (outcome_of (machine_state machine.now).machine)) }
{
    match machine {
        AnyMachine::Narrow(machine) => push_ends(out, machine),
        AnyMachine::Wide(machine) => push_ends(out, machine),
    }
}

/// Puts it in place of what is there.
pub fn put_outcome(out: &mut Vec<u8>, machine: &AnyMachine) -> Result<(), NoMemory>
    ensures { OnOk result (out.new.items ≡ outcome_of (machine_state machine.now).machine) }
{
    out.clear();
    push_outcome(out, machine)
}

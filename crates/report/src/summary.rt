//! The summary of a machine.

ghost use Rattle.std.specs.Prelude.{◌≡◌, IfOk, OnOk};
ghost use Rattle.std.specs.List.{flat_map};
ghost use Rattle.report.specs.DdmText.Adds.{Adds};
ghost use Rattle.report.specs.TreeModel.State.Shape.{depth_of};
ghost use Rattle.text_model.specs.Report.{bus_lines, hart_line_of, summary_of};
ghost use Rattle.text_model.specs.Run.{view_of};
ghost use Rattle.any_machine.specs.Any.{machine_state, state_in};
ghost use Rattle.report.specs.MachineView.{harts_of};

use crate::buses::push_bus_line;
use crate::harts::{push_hart_line, push_head};
use crate::of_ddm_types::{BusNo, HartNo, NoMemory};
use crate::pieces::push_bytes;
use any_machine::{AnyMachine, Machines};
use std::alloc::Global;
use text_model::RunCounts;

// The first line of each hart.
fn push_hart_states<const WORDS: usize>(
    out: &mut Vec<u8>,
    machine: &Machines<WORDS>,
) -> Result<(), NoMemory>
    ensures { OnOk result (Adds out.old.items out.new.items (flat_map hart_line_of (harts_of (state_in machine.now).machine))) }
{
    for leaf in 0..machine.counts().leaves {
        let number = HartNo(leaf);
        let hart = machine.hart(number);
        push_hart_line(out, number, hart.halted(), hart.pc(), hart.done())?;
    }
    Ok(())
}

// The line of each bus.
fn push_buses<const WORDS: usize>(
    out: &mut Vec<u8>,
    machine: &Machines<WORDS>,
) -> Result<(), NoMemory>
    ensures { OnOk result (Adds out.old.items out.new.items (bus_lines (state_in machine.now).machine.traffic)) }
{
    for bus in 0..machine.counts().buses {
        push_bus_line(out, BusNo(bus), &machine.traffic()[bus as usize])?;
    }
    Ok(())
}

fn summary<const WORDS: usize>(
    alloc: Global,
    machine: &Machines<WORDS>,
    counts: RunCounts,
) -> Result<Vec<u8>, NoMemory>
    ensures { let m = (state_in machine.now).machine in IfOk result (λ text. text.items ≡ summary_of (view_of (depth_of m) counts m)) }
{
    let mut text = Vec::new(alloc);
    push_head(&mut text, counts)?;
    push_hart_states(&mut text, machine)?;
    push_buses(&mut text, machine)?;
    push_bytes(&mut text, b"end\n")?;
    Ok(text)
}

/// The summary of a machine of any tree, after turns that came to these counts.
pub fn summary_text(
    alloc: Global,
    machine: &AnyMachine,
    counts: RunCounts,
) -> Result<Vec<u8>, NoMemory>
    ensures { let m = (machine_state machine.now).machine in IfOk result (λ text. text.items ≡ summary_of (view_of (depth_of m) counts m)) }
{
    match machine {
        AnyMachine::Narrow(machine) => summary(alloc, machine, counts),
        AnyMachine::Wide(machine) => summary(alloc, machine, counts),
    }
}

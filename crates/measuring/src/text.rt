//! The text of measures.

ghost use Rattle.std.specs.Prelude.{◌≡◌, OnOk, length};
ghost use Rattle.ddm_types.specs.ItemTable.{item_count};
ghost use Rattle.report.specs.DdmText.Adds.{Adds};
ghost use Rattle.recording.specs.AnyMachine.Any.{machine_state, state_in};
ghost use Rattle.recording_model.specs.TreeModel.State.Shape.{tree_counts};
ghost use Rattle.recording_model.specs.TreeModel.Turns.Machine.{machine_leaves};
ghost use Rattle.measure_model.specs.Text.{bus_counts_lines, hart_counts_lines, item_counts_lines, leaf_most_lines};
ghost use Rattle.measure_model.specs.Text.{measures_text, most_lines};
ghost use Rattle.measuring.specs.Kept.{tally_of};
ghost use Rattle.measuring.specs.Sized.{IsSized};

use crate::lines::{
    push_bus, push_end, push_hart, push_item, push_leaf_most, push_most, push_totals,
};
use crate::tally::Tally;
use ddm_types::{HartNo, ItemId, NoMemory};
use measure_model::{HartCounts, ItemCounts};
use recording::RunEnd;
use recording::of_any_machine::{AnyMachine, Machines};
use report::push_bytes;
use tree_model::{DirLengths, LeafLengths};

// The line of each hart.
fn push_harts<const WORDS: usize>(
    out: &mut Vec<u8>,
    machine: &Machines<WORDS>,
    harts: &[HartCounts],
) -> Result<(), NoMemory>
    requires { length harts.now ≡ (tree_counts (state_in machine.now).machine).leaves }
    ensures { OnOk result (Adds out.old.items out.new.items (hart_counts_lines (machine_leaves (state_in machine.now).machine) harts.now)) }
{
    for leaf in 0..machine.counts().leaves {
        let hart = machine.hart(HartNo(leaf));
        push_hart(out, leaf, hart, &harts[leaf as usize])?;
    }
    Ok(())
}

// The line of each bus.
fn push_buses<const WORDS: usize>(
    out: &mut Vec<u8>,
    machine: &Machines<WORDS>,
    busy: &[u32],
) -> Result<(), NoMemory>
    requires { length busy.now ≡ (tree_counts (state_in machine.now).machine).buses }
    ensures { OnOk result (Adds out.old.items out.new.items (bus_counts_lines 0 (state_in machine.now).machine.traffic busy.now)) }
{
    for bus in 0..machine.counts().buses {
        push_bus(
            out,
            bus,
            &machine.traffic()[bus as usize],
            busy[bus as usize],
        )?;
    }
    Ok(())
}

// The greatest lengths over each bus.
fn push_mosts(out: &mut Vec<u8>, mosts: &[DirLengths], buses: u32) -> Result<(), NoMemory>
    requires { length mosts.now ≡ buses }
    ensures { OnOk result (Adds out.old.items out.new.items (most_lines 0 mosts.now)) }
{
    for bus in 0..buses {
        push_most(out, bus, &mosts[bus as usize])?;
    }
    Ok(())
}

// And of each leaf.
fn push_leaf_mosts(out: &mut Vec<u8>, mosts: &[LeafLengths], leaves: u32) -> Result<(), NoMemory>
    requires { length mosts.now ≡ leaves }
    ensures { OnOk result (Adds out.old.items out.new.items (leaf_most_lines 0 mosts.now)) }
{
    for leaf in 0..leaves {
        push_leaf_most(out, leaf, &mosts[leaf as usize])?;
    }
    Ok(())
}

// The line of each item of which there is anything to be told.
fn push_items<const WORDS: usize>(
    out: &mut Vec<u8>,
    machine: &Machines<WORDS>,
    items: &[ItemCounts],
) -> Result<(), NoMemory>
    requires { length items.now ≡ item_count (state_in machine.now).machine.items }
    ensures { OnOk result (Adds out.old.items out.new.items (item_counts_lines 0 (state_in machine.now).machine.items.rows items.now)) }
{
    for item in 0..machine.items().len() {
        let address = machine.items().address(ItemId(item));
        push_item(out, item, address, &items[item as usize])?;
    }
    Ok(())
}

fn push_measures<const WORDS: usize>(
    out: &mut Vec<u8>,
    machine: &Machines<WORDS>,
    tally: &Tally,
    end: RunEnd,
) -> Result<(), NoMemory>
    requires { IsSized (tally_of tally.now) (state_in machine.now).machine }
    ensures { OnOk result (Adds out.old.items out.new.items (measures_text end (tally_of tally.now) (state_in machine.now).machine)) }
{
    let counts = machine.counts();
    push_bytes(out, b"measure 1\n")?;
    push_end(out, end)?;
    push_totals(out, &tally.totals)?;
    push_harts(out, machine, &tally.harts)?;
    push_buses(out, machine, &tally.busy)?;
    push_mosts(out, &tally.most, counts.buses)?;
    push_leaf_mosts(out, &tally.leaf_most, counts.leaves)?;
    push_items(out, machine, &tally.items)?;
    push_bytes(out, b"end\n")?;
    Ok(())
}

/// Puts at the end the text of what is kept of a run that ended so, with this machine.
pub(crate) fn push_text(
    out: &mut Vec<u8>,
    machine: &AnyMachine,
    tally: &Tally,
    end: RunEnd,
) -> Result<(), NoMemory>
    requires { IsSized (tally_of tally.now) (machine_state machine.now).machine }
    ensures { OnOk result (Adds out.old.items out.new.items (measures_text end (tally_of tally.now) (machine_state machine.now).machine)) }
{
    match machine {
        AnyMachine::Narrow(machine) => push_measures(out, machine, tally, end),
        AnyMachine::Wide(machine) => push_measures(out, machine, tally, end),
    }
}

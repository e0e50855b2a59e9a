//! The words of the parts of a machine without its time.

ghost use Rattle.std.specs.Prelude.{◌≡◌, ◌++◌, ◌<◌, ◌^◌, OnOk, flat_map, length};
ghost use Rattle.std.specs.List.{range_with_len};
ghost use Rattle.tree_model.specs.Turns.Machine.{machine_leaves};
ghost use Rattle.state_words.specs.Machine.{bus_words};
ghost use Rattle.state_words.specs.Parts.{leaf_words};
ghost use Rattle.time_laws.specs.Forget.{forget, put_by, puts_of};
ghost use Rattle.explorer.specs.StateKeys.Key.{put_words, state_key};
ghost use Rattle.machine_states.specs.Words.{HasForms, HasItemWords, timeless_hart};

use any_runs::of_ddm_tree::{Machine, Subtree};
use any_runs::of_operation_list::Operations;
use ddm_types::{BusNo, Effect, HartNo, LeafNo, NoMemory, Op};
use std::alloc::Global;
use timeless_words::{push_bus, push_hart};

/// The end word of a state.
const END: u32 = 0x454d_4444;

// Each puts words at the end. `part` is where the words of a checkpoint are put meanwhile.

fn push_harts<const WORDS: usize, C: Subtree<WORDS>>(
    machine: &Machine<WORDS, C>,
    part: &mut Vec<u32>,
    out: &mut Vec<u32>,
) -> Result<(), NoMemory>
    requires { HasForms machine.now.machine }
    ensures { OnOk result
        (out.new.items ≡ out.old.items ++ flat_map timeless_hart (machine_leaves machine.now.machine)) }
{
    for leaf in 0..machine.counts().leaves {
        part.clear();
        machine.write_hart(LeafNo(leaf), part)?;
        push_hart(part, out)?;
    }
    Ok(())
}

fn push_buses<const WORDS: usize, C: Subtree<WORDS>>(
    machine: &Machine<WORDS, C>,
    part: &mut Vec<u32>,
    out: &mut Vec<u32>,
) -> Result<(), NoMemory>
    requires form { HasForms machine.now.machine }
    requires width { HasItemWords WORDS machine.now.machine }
    ensures { OnOk result
        (out.new.items
        ≡ out.old.items
        ++ flat_map (bus_words (forget machine.now.machine))
        (range_with_len 0 (length machine.now.machine.traffic))) }
{
    for bus in 0..machine.counts().buses {
        part.clear();
        machine.write_part(BusNo(bus), part)?;
        push_bus(part, WORDS, out)?;
    }
    Ok(())
}

fn push_leaves<const WORDS: usize, C: Subtree<WORDS>>(
    machine: &Machine<WORDS, C>,
    out: &mut Vec<u32>,
) -> Result<(), NoMemory>
    ensures { OnOk result (out.new.items ≡ out.old.items ++ flat_map leaf_words (machine_leaves machine.now.machine)) }
{
    for leaf in 0..machine.counts().leaves {
        machine.write_leaf(LeafNo(leaf), out)?;
    }
    Ok(())
}

fn push_put(op: &Op, hart: HartNo, out: &mut Vec<u32>) -> Result<(), NoMemory>
    ensures { OnOk result (out.new.items ≡ out.old.items ++ put_by hart op.now) }
{
    if op.hart == hart
        && let Effect::Put { byte } = op.effect
    {
        out.push(u32::from(byte))?;
    }
    Ok(())
}

// How many bytes a hart has put out, and the bytes.
fn push_puts(
    ops: &Operations,
    hart: HartNo,
    part: &mut Vec<u32>,
    out: &mut Vec<u32>,
) -> Result<(), NoMemory>
    requires { length ops.now.items < 2 ^ 32 }
    ensures { OnOk result (out.new.items ≡ out.old.items ++ put_words (flat_map (put_by hart) ops.now.items)) }
{
    part.clear();
    for place in 0..ops.len() {
        push_put(&ops.get(place), hart, part)?;
    }
    out.push(part.len() as u32)?;
    out.extend_from_slice(part)?;
    Ok(())
}

fn push_all_puts<const WORDS: usize, C: Subtree<WORDS>>(
    machine: &Machine<WORDS, C>,
    part: &mut Vec<u32>,
    out: &mut Vec<u32>,
) -> Result<(), NoMemory>
    requires { length machine.now.machine.ops < 2 ^ 32 }
    ensures { OnOk result (out.new.items ≡ out.old.items ++ flat_map put_words (puts_of machine.now.machine)) }
{
    for leaf in 0..machine.counts().leaves {
        push_puts(machine.ops(), HartNo(leaf), part, out)?;
    }
    Ok(())
}

/// Puts the words of the machine's state at the end.
pub(crate) fn push_state<const WORDS: usize, C: Subtree<WORDS>>(
    alloc: Global,
    machine: &Machine<WORDS, C>,
    out: &mut Vec<u32>,
) -> Result<(), NoMemory>
    requires form { HasForms machine.now.machine }
    requires width { HasItemWords WORDS machine.now.machine }
    requires few { length machine.now.machine.ops < 2 ^ 32 }
    ensures { OnOk result (out.new.items ≡ out.old.items ++ state_key machine.now.machine) }
{
    let mut part = Vec::new(alloc);
    push_harts(machine, &mut part, out)?;
    push_buses(machine, &mut part, out)?;
    push_leaves(machine, out)?;
    // No operation is a part of a state.
    out.extend_from_slice(&[0, END])?;
    push_all_puts(machine, &mut part, out)
}

//! The parts of a report, read from a machine.

ghost use Rattle.std.specs.Prelude.{◌≡◌, ◌<◌, ◌≤◌, ◌++◌, [], true, codes, drop, length, slice_index_or};
ghost use Rattle.report.specs.DdmTypes.ItemTable.{item_count, row_at};
ghost use Rattle.report.specs.TreeModel.State.Shape.{IsShaped, tree_counts};
ghost use Rattle.report.specs.TreeModel.Turns.Found.{states_of};
ghost use Rattle.report.specs.TreeModel.Turns.Machine.{no_traffic};
ghost use Rattle.text_model.specs.Report.{bus_line, head_lines, letter_texts, op_line, op_lines, put_texts};
ghost use Rattle.text_model.specs.Run.{item_view};
ghost use Rattle.any_machine.specs.Any.{state_in};
ghost use Rattle.report.specs.LineParts.{dash_behind};
ghost use Rattle.report.specs.MachineView.{harts_of};
ghost use Rattle.report.specs.ReportLeft.{front_of, hart_front, no_view};

use crate::buses::push_bus_line;
use crate::harts::{has_output, push_hart_front, push_head, push_put_by};
use crate::items::{letter, push_item_front, push_letter};
use crate::line::Line;
use crate::of_ddm_types::{BusNo, HartNo, ItemId, LEVELS, LeafNo, LeafState, Op};
use crate::of_operation_list::Operations;
use crate::operations::push_op_line;
use crate::pieces::push_bytes;
use any_machine::Machines;
use text_model::RunCounts;
use witness_order::Ordered;

// From so many bytes on a line takes no further byte of output and no further state.
const LONG_LINE: usize = 500;

// The most leaves whose states are read in one walk.
const MOST_AT_ONCE: usize = 64;

// The most bytes with which a line takes the line of a further operation.
const MOST_BEFORE_OPERATION: usize = 257;

/// Puts the first two lines of a report.
pub fn put_head(line: &mut Line, counts: RunCounts)
    requires { line.old ≡ [] }
    ensures { line.new ≡ head_lines counts }
{
    let Ok(()) = push_head(line, counts) else {
        unreachable!();
    };
}

/// Puts the lines of a hart, up to its output.
pub fn put_hart<const WORDS: usize>(line: &mut Line, machine: &Machines<WORDS>, leaf: u32)
    requires empty { line.old ≡ [] }
    requires shape { IsShaped (state_in machine.now).machine }
    requires leaf { leaf < (tree_counts (state_in machine.now).machine).leaves }
    ensures { line.new ≡ hart_front (slice_index_or (harts_of (state_in machine.now).machine) leaf no_view) }
{
    let number = HartNo(leaf);
    let Ok(()) = push_hart_front(line, number, machine.hart(number)) else {
        unreachable!();
    };
}

/// Puts a hart's output from an operation on, until the line is long, and says from which operation on the rest is.
#[tactic(auto, unfolding(text_model::specs::Report::put_texts))]
pub fn put_output(line: &mut Line, hart: HartNo, ops: &Operations, from: usize) -> usize
    requires empty { line.old ≡ [] }
    requires from { from ≤ length ops.now.items }
    ensures within { result ≤ length ops.now.items }
    ensures output { put_texts hart (drop from ops.now.items) ≡ line.new ++ put_texts hart (drop result ops.now.items) }
    ensures room { length line.new ≤ 501 }
    ensures long { result < length ops.now.items → 500 ≤ length line.new }
{
    let mut next = from;
    'output: while next < ops.len() && line.len() < LONG_LINE {
        let Ok(()) = push_put_by(line, hart, ops.get(next)) else {
            unreachable!();
        };
        next += 1;
    }
    next
}

// Puts the dash of a hart that has put nothing behind its output from an operation on. Only the operations before that one are
// looked at, and these only where nothing was put from there on.
fn put_dash(line: &mut Line, hart: HartNo, ops: &Operations, from: usize)
    requires from { from ≤ length ops.now.items }
    requires output { put_texts hart (drop from ops.now.items) ≡ line.old }
    requires room { length line.old ≤ 501 }
    ensures dash { line.new ≡ line.old ++ dash_behind (put_texts hart ops.now.items) }
    ensures room { length line.new ≤ 502 }
{
    if !line.is_empty() {
        return;
    }
    if has_output(hart, ops, from) {
        return;
    }
    line.push(b"-");
}

/// Ends the line of a hart's output from an operation on.
pub fn end_output(line: &mut Line, hart: HartNo, ops: &Operations, from: usize)
    requires from { from ≤ length ops.now.items }
    requires output { put_texts hart (drop from ops.now.items) ≡ line.old }
    requires room { length line.old ≤ 501 }
    ensures { line.new ≡ line.old ++ dash_behind (put_texts hart ops.now.items) ++ codes "\n" }
{
    put_dash(line, hart, ops, from);
    end_line(line);
}

/// Puts the dash of a hart that has put nothing, and ends its line.
pub fn put_silence(line: &mut Line)
    requires { line.old ≡ [] }
    ensures { line.new ≡ codes "-\n" }
{
    let Ok(()) = push_bytes(line, b"-\n") else {
        unreachable!();
    };
}

/// Ends a line.
pub fn end_line(line: &mut Line)
    requires { length line.old ≤ 502 }
    ensures { line.new ≡ line.old ++ codes "\n" }
{
    let Ok(()) = push_bytes(line, b"\n") else {
        unreachable!();
    };
}

/// Puts the line of a bus.
pub fn put_bus<const WORDS: usize>(line: &mut Line, machine: &Machines<WORDS>, bus: u32)
    requires empty { line.old ≡ [] }
    requires bus { bus < length (state_in machine.now).machine.traffic }
    ensures { line.new ≡ bus_line bus (slice_index_or (state_in machine.now).machine.traffic bus no_traffic) }
{
    let traffic = &machine.traffic()[bus as usize];
    let Ok(()) = push_bus_line(line, BusNo(bus), traffic) else {
        unreachable!();
    };
}

/// Puts the line of an item, up to the states of its entries.
pub fn put_item<const WORDS: usize>(line: &mut Line, machine: &Machines<WORDS>, item: ItemId)
    requires small { WORDS ≤ 16 }
    requires empty { line.old ≡ [] }
    requires item { item < item_count (state_in machine.now).machine.items }
    ensures { let m = (state_in machine.now).machine in line.new ≡ front_of (item_view m item (row_at m.items item)) }
{
    let address = machine.items().address(item);
    let found = machine.find(item);
    let Ok(()) = push_item_front(line, item, address, &found.words.w, found.at) else {
        unreachable!();
    };
}

// Puts the letters of these states. Where no letter is put a dash stands from the start, as at most leaves.
fn put_letters(line: &mut Line, states: &[Option<LeafState>])
    requires empty { line.old ≡ [] }
    requires few { length states.now ≤ MOST_AT_ONCE }
    ensures { line.new ≡ letter_texts states.now }
{
    let mut letters = [b'-'; MOST_AT_ONCE];
    for leaf in 0..states.len() {
        if let Some(state) = states[leaf] {
            letters[leaf] = letter(state);
        }
    }
    line.push(&letters[..states.len()]);
}

// Puts the states of an item's entries in one walk over a tree of few leaves.
fn put_few_states<const WORDS: usize>(
    line: &mut Line,
    machine: &Machines<WORDS>,
    item: ItemId,
    from: u32,
    leaves: u32,
) -> u32
    requires empty { line.old ≡ [] }
    requires few { leaves ≤ MOST_AT_ONCE }
    requires leaves { leaves ≡ (tree_counts (state_in machine.now).machine).leaves }
    requires from { from ≤ leaves }
    ensures within { result ≤ leaves }
    ensures states { let all = states_of item (state_in machine.now).machine in
        letter_texts (drop from all) ≡ line.new ++ letter_texts (drop result all) }
    ensures room { length line.new ≤ 500 }
    ensures long { result < leaves → 500 ≤ length line.new }
{
    let mut states = [None; MOST_AT_ONCE];
    machine.states(item, &mut states);
    put_letters(line, &states[from as usize..leaves as usize]);
    leaves
}

// Puts the states of an item's entries leaf by leaf.
fn put_many_states<const WORDS: usize>(
    line: &mut Line,
    machine: &Machines<WORDS>,
    item: ItemId,
    from: u32,
    leaves: u32,
) -> u32
    requires empty { line.old ≡ [] }
    requires shape { IsShaped (state_in machine.now).machine }
    requires leaves { leaves ≡ (tree_counts (state_in machine.now).machine).leaves }
    requires from { from ≤ leaves }
    ensures within { result ≤ leaves }
    ensures states { let all = states_of item (state_in machine.now).machine in
        letter_texts (drop from all) ≡ line.new ++ letter_texts (drop result all) }
    ensures room { length line.new ≤ 500 }
    ensures long { result < leaves → 500 ≤ length line.new }
{
    let mut next = from;
    'states: while next < leaves && line.len() < LONG_LINE {
        let Ok(()) = push_letter(line, machine.state(item, LeafNo(next))) else {
            unreachable!();
        };
        next += 1;
    }
    next
}

/// Puts the states of an item's entries from a leaf on, until the line is long, and says from which leaf on the rest is.
pub fn put_states<const WORDS: usize>(
    line: &mut Line,
    machine: &Machines<WORDS>,
    item: ItemId,
    from: u32,
    leaves: u32,
) -> u32
    requires empty { line.old ≡ [] }
    requires shape { IsShaped (state_in machine.now).machine }
    requires leaves { leaves ≡ (tree_counts (state_in machine.now).machine).leaves }
    requires from { from ≤ leaves }
    ensures within { result ≤ leaves }
    ensures states { let all = states_of item (state_in machine.now).machine in
        letter_texts (drop from all) ≡ line.new ++ letter_texts (drop result all) }
    ensures room { length line.new ≤ 500 }
    ensures long { result < leaves → 500 ≤ length line.new }
{
    if leaves as usize <= MOST_AT_ONCE {
        put_few_states(line, machine, item, from, leaves)
    } else {
        put_many_states(line, machine, item, from, leaves)
    }
}

// Puts the line of an operation at the end.
fn put_operation(line: &mut Line, depth: u32, op: Op)
    requires room { length line.old ≤ MOST_BEFORE_OPERATION }
    requires depth { depth ≤ LEVELS }
    ensures { line.new ≡ line.old ++ op_line depth op }
{
    let Ok(()) = push_op_line(line, depth, op) else {
        unreachable!();
    };
}

/// Puts the lines of operations from one on, until there may be no room for a further one, and says from which operation
/// on the rest is.
#[tactic(auto, unfolding(text_model::specs::Report::op_lines))]
pub fn put_operations(line: &mut Line, depth: u32, ops: &Ordered, from: usize) -> usize
    requires empty { line.old ≡ [] }
    requires depth { depth ≤ LEVELS }
    requires from { from < length ops.now }
    ensures within { result ≤ length ops.now }
    ensures lines { op_lines depth (drop from ops.now) ≡ line.new ++ op_lines depth (drop result ops.now) }
    ensures some { 0 < length line.new }
{
    let mut next = from;
    'operations: while next < ops.len() && line.len() <= MOST_BEFORE_OPERATION {
        put_operation(line, depth, ops.get(next));
        next += 1;
    }
    next
}

/// Puts the last line of a report.
pub fn put_end(line: &mut Line)
    requires { line.old ≡ [] }
    ensures { line.new ≡ codes "end\n" }
{
    let Ok(()) = push_bytes(line, b"end\n") else {
        unreachable!();
    };
}

//! A report given piece by piece.

ghost use Rattle.std.specs.Prelude.{◌≡◌, ◌<◌, ◌≤◌, ◌↔◌, [], ◌++◌, IfOk, length, take};
ghost use Rattle.report.specs.TreeModel.State.Shape.{IsShaped, depth_of};
ghost use Rattle.report.specs.TreeModel.Turns.Witness.{sorted_ops};
ghost use Rattle.text_model.specs.Report.{ReportView, report_of};
ghost use Rattle.text_model.specs.Run.{view_of};
ghost use Rattle.any_machine.specs.Any.{machine_state, state_in};
ghost use Rattle.report.specs.MachineView.{IsGiven, shown};
ghost use Rattle.report.specs.ReportLeft.{Gives, HasPart, HasSize};
ghost use Rattle.report.specs.declared.report_parts.ReportPart.TheVariants.{Output};

use crate::harts::are_silent;
use crate::line::Line;
use crate::machine_parts::{
    end_line, end_output, put_bus, put_end, put_hart, put_head, put_item, put_operations,
    put_output, put_silence, put_states,
};
use crate::of_ddm_types::{HartNo, ItemId, NoMemory, Op};
use crate::of_operation_list::Operations;
use crate::parts::{LEAST_PIECE, Parts, joined, put_piece};
use crate::report_parts::{ReportPart, ReportSize};
use any_machine::{AnyMachine, Machines};
use std::alloc::Global;
use std::marker::Model;
use text_model::RunCounts;
use witness_order::Ordered;

/// The report of a machine after turns that came to these counts, given piece by piece. A contract sees the text that is left.
#[derive(Drop)]
pub struct ReportPieces<'a> {
    machine: &'a AnyMachine,
    // Its operations, in order of their keys.
    witness: Ordered<'a>,
    counts: RunCounts,
    size: ReportSize,
    next: ReportPart,
}

impl<'a> Model for ReportPieces<'a> {
    ghost use Rattle.std.specs.Prelude.{ℕ, List};

    ghost Value = { List ℕ };

    ghost use Rattle.report.specs.PiecesLeft.{report_left, IsReport};

    ghost view = { report_left };

    ghost invariant = { IsReport };
}

// How much of each kind a machine's report shows.
fn size_shown<const WORDS: usize>(
    machine: &Machines<WORDS>,
    witness: &Ordered,
    counts: RunCounts,
) -> ReportSize
    requires { witness.now ≡ sorted_ops (state_in machine.now).machine.ops }
    ensures size { HasSize (shown counts (state_in machine.now).machine) result }
    ensures shape { IsShaped (state_in machine.now).machine }
{
    let tree = machine.counts();
    ReportSize {
        depth: tree.depth,
        harts: tree.leaves,
        buses: tree.buses,
        items: machine.items().len(),
        operations: witness.len(),
        silent: are_silent(machine.ops()),
    }
}

// Puts a hart's output from an operation on, and gives the part behind it. Where no hart has put anything, no operation is
// looked at.
fn put_output_part(
    line: &mut Line,
    ops: &Operations,
    size: ReportSize,
    hart: u32,
    from: usize,
) -> ReportPart
    requires empty { line.old ≡ [] }
    requires hart { hart < size.harts }
    requires from { from ≤ length ops.now.items }
    ensures { (v : ReportView) → v.completed ≡ ops.now.items → HasSize v size → HasPart v (Output hart from) →
        Gives v (Output hart from) line.new result }
{
    if size.silent {
        put_silence(line);
        return size.hart_part(hart + 1);
    }
    let next = put_output(line, HartNo(hart), ops, from);
    if next < ops.len() {
        return ReportPart::Output(hart, next);
    }
    end_output(line, HartNo(hart), ops, from);
    size.hart_part(hart + 1)
}

// Puts the text of the part that comes next, and gives the one behind it.
fn put_part<const WORDS: usize>(
    line: &mut Line,
    machine: &Machines<WORDS>,
    witness: &Ordered,
    counts: RunCounts,
    size: ReportSize,
    part: ReportPart,
) -> ReportPart
    requires small { WORDS ≤ 16 }
    requires empty { line.old ≡ [] }
    requires given { IsGiven counts (state_in machine.now).machine witness.now size part }
    ensures { Gives (shown counts (state_in machine.now).machine) part line.new result }
{
    match part {
        ReportPart::Head => {
            put_head(line, counts);
            size.hart_part(0)
        }
        ReportPart::Hart(hart) => {
            put_hart(line, machine, hart);
            ReportPart::Output(hart, 0)
        }
        ReportPart::Output(hart, from) => { put_output_part(line, machine.ops(), size, hart, from) }
        ReportPart::Bus(bus) => {
            put_bus(line, machine, bus);
            size.bus_part(bus + 1)
        }
        ReportPart::Item(item) => {
            put_item(line, machine, ItemId(item));
            ReportPart::States(item, 0)
        }
        ReportPart::States(item, from) => {
            let next = put_states(line, machine, ItemId(item), from, size.harts);
            if next < size.harts {
                return ReportPart::States(item, next);
            }
            end_line(line);
            size.item_part(item + 1)
        }
        ReportPart::Operation(operation) => {
            let next = put_operations(line, size.depth, witness, operation);
            size.operation_part(next)
        }
        ReportPart::End => {
            put_end(line);
            ReportPart::Nothing
        }
        ReportPart::Nothing => ReportPart::Nothing,
    }
}

// The same of a machine with items of either width.
fn any_size_shown(machine: &AnyMachine, witness: &Ordered, counts: RunCounts) -> ReportSize
    requires { witness.now ≡ sorted_ops (machine_state machine.now).machine.ops }
    ensures size { HasSize (shown counts (machine_state machine.now).machine) result }
    ensures shape { IsShaped (machine_state machine.now).machine }
{
    match machine {
        AnyMachine::Narrow(machine) => size_shown(machine, witness, counts),
        AnyMachine::Wide(machine) => size_shown(machine, witness, counts),
    }
}

fn put_any_part(
    line: &mut Line,
    machine: &AnyMachine,
    witness: &Ordered,
    counts: RunCounts,
    size: ReportSize,
    part: ReportPart,
) -> ReportPart
    requires empty { line.old ≡ [] }
    requires given { IsGiven counts (machine_state machine.now).machine witness.now size part }
    ensures { Gives (shown counts (machine_state machine.now).machine) part line.new result }
{
    match machine {
        AnyMachine::Narrow(machine) => put_part(line, machine, witness, counts, size, part),
        AnyMachine::Wide(machine) => put_part(line, machine, witness, counts, size, part),
    }
}

impl<'a> ReportPieces<'a> {
    /// The report, of which nothing is given yet. It takes no memory.
    pub fn new(machine: &'a AnyMachine, witness: &'a [Op], counts: RunCounts) -> ReportPieces<'a>
        requires { witness.now ≡ sorted_ops (machine_state machine.now).machine.ops }
        ensures { let m = (machine_state machine.now).machine in result ≡ report_of (view_of (depth_of m) counts m) }
    {
        ReportPieces::in_order(machine, Ordered::of(witness), counts)
    }

    /// The same with operations that may be in order by their places alone.
    pub fn in_order(
        machine: &'a AnyMachine,
        witness: Ordered<'a>,
        counts: RunCounts,
    ) -> ReportPieces<'a>
        requires { witness ≡ sorted_ops (machine_state machine.now).machine.ops }
        ensures { let m = (machine_state machine.now).machine in result ≡ report_of (view_of (depth_of m) counts m) }
    {
        let size = any_size_shown(machine, &witness, counts);
        ReportPieces {
            machine,
            witness,
            counts,
            size,
            next: ReportPart::Head,
        }
    }

    /// Puts the next bytes of the report at the front of `into`, and says how many they are: none only where all was given.
    /// It takes no memory.
    pub fn next_piece(&mut self, into: &mut [u8]) -> usize
        requires { LEAST_PIECE ≤ length into.old }
        ensures within { result ≤ length into.new }
        ensures piece { self.old ≡ take result into.new ++ self.new }
        ensures end { (result ≡ 0) ↔ (self.old ≡ []) }
    {
        put_piece(self, into)
    }
}

impl<'a> Parts for ReportPieces<'a> {
    ghost left = { λ text. text };

    fn put_next(&mut self, line: &mut Line) {
        self.next = put_any_part(
            line,
            self.machine,
            &self.witness,
            self.counts,
            self.size,
            self.next,
        );
    }
}

/// A machine's operations in the order of their keys. Memory is taken only where they aren't in that order already.
#[tactic(auto, using(crate::proofs::OtherKeys::keys_by_rules))]
pub fn sorted_witness<'a>(alloc: Global, machine: &'a AnyMachine) -> Result<Ordered<'a>, NoMemory>
    ensures { IfOk result (λ w. w ≡ sorted_ops (machine_state machine.now).machine.ops) }
{
    // The rules that every machine keeps, by which no two operations have one key.
    machine.counts();
    Ordered::new(alloc, machine.ops())
}

/// The report of a machine of any tree, after turns that came to these counts.
pub fn report_text(
    alloc: Global,
    machine: &AnyMachine,
    counts: RunCounts,
) -> Result<Vec<u8>, NoMemory>
    ensures { let m = (machine_state machine.now).machine in IfOk result (λ text. text.items ≡ report_of (view_of (depth_of m) counts m)) }
{
    let witness = sorted_witness(alloc, machine)?;
    joined(alloc, &mut ReportPieces::in_order(machine, witness, counts))
}

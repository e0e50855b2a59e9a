//! What is kept of a run that is measured.

ghost use Rattle.std.specs.Prelude.{◌≡◌, IfOk, true};
ghost use Rattle.recording.specs.AnyMachine.Any.{machine_state};
ghost use Rattle.recording_model.specs.TreeModel.Turns.Machine.{names_part};
ghost use Rattle.measuring.specs.Kept.{first_measures, tally_of};
ghost use Rattle.measuring.specs.Step.{after_came};

use crate::counting::{
    count_all, count_busy, count_busy_bus, count_busy_hart, count_harts, count_items,
};
use crate::lengths::look;
use crate::starting::{first_in, first_over};
use ddm_types::{NoMemory, Turn, TurnAnswer};
use measure_model::{HartCounts, ItemCounts, RunTotals};
use recording::Came;
use recording::of_any_machine::AnyMachine;
use recording::of_ddm_tree::{Machine, Subtree};
use std::alloc::Global;
use tree_model::{DirLengths, LeafLengths};

// Nothing is counted yet.
const NO_TOTALS: RunTotals = RunTotals {
    turns: 0,
    drawn: 0,
    retired: 0,
    issued: 0,
    granted: 0,
    halted: 0,
    busy: 0,
};

const NO_HART_COUNTS: HartCounts = HartCounts {
    loads: 0,
    stores: 0,
    amos: 0,
    failed: 0,
    reads: 0,
    erases: 0,
    busy: 0,
};

const NO_ITEM_COUNTS: ItemCounts = ItemCounts {
    reads: 0,
    erases: 0,
    injects: 0,
};

/// What is counted of a run so far, and the greatest lengths so far: of each hart or leaf, each bus and each item by
/// its number.
#[derive(Drop)]
pub(crate) struct Tally {
    pub(crate) totals: RunTotals,
    pub(crate) harts: Vec<HartCounts>,
    /// How many turns of each bus were busy.
    pub(crate) busy: Vec<u32>,
    pub(crate) most: Vec<DirLengths>,
    pub(crate) leaf_most: Vec<LeafLengths>,
    pub(crate) items: Vec<ItemCounts>,
}

impl Tally {
    /// For a machine before its run.
    pub fn new(alloc: Global, machine: &AnyMachine) -> Result<Tally, NoMemory>
        ensures { IfOk result (λ tally. tally_of tally ≡ first_measures (machine_state machine.now).machine) }
    {
        let counts = machine.counts();
        let leaves = counts.leaves as usize;
        let buses = counts.buses as usize;
        let items = machine.items().len() as usize;
        Ok(Tally {
            totals: NO_TOTALS,
            harts: Vec::from_elem(alloc, NO_HART_COUNTS, leaves)?,
            busy: Vec::from_elem(alloc, 0, buses)?,
            most: first_over(alloc, machine)?,
            leaf_most: first_in(alloc, machine)?,
            items: Vec::from_elem(alloc, NO_ITEM_COUNTS, items)?,
        })
    }
    /// A drawn turn came to this: where it did something, with this answer and this machine after it.
    pub fn count<const WORDS: usize, C: Subtree<WORDS>>(
        &mut self,
        machine: &Machine<WORDS, C>,
        turn: &Turn,
        came: Came,
        answer: &TurnAnswer,
    )
        requires { names_part turn.now machine.now.machine ≡ true }
        ensures { tally_of self.new ≡ after_came came turn.now answer.now machine.now.machine (tally_of self.old) }
    {
        match came {
            Came::ToNothing => {}
            Came::ToBusy => {
                count_busy(&mut self.totals);
                count_busy_hart(&mut self.harts, turn);
                count_busy_bus(&mut self.busy, turn);
            }
            Came::ToDoing => {
                count_all(&mut self.totals, answer);
                count_harts(&mut self.harts, turn, answer);
                count_items(&mut self.items, answer);
                look(&mut self.most, &mut self.leaf_most, machine, turn);
            }
        }
    }
}

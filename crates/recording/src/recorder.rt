//! The recorded run of a seed.

ghost use Rattle.std.specs.Prelude.{◌≡◌, ◌+◌, ◌≤◌, ◌++◌, IfOk, length, vec_capacity};
ghost use Rattle.tree_model.specs.State.Shape.{tree_counts};
ghost use Rattle.any_runs.specs.AnyMachine.Any.{machine_state};
ghost use Rattle.any_runs.specs.AnyMachine.Kind.{kind_of};
ghost use Rattle.schedule_log.specs.Shapes.{shape_view};
ghost use Rattle.recording_model.specs.Recording.{drawn_limit, recording_of};
ghost use Rattle.recording.specs.Runs.{CanBegin};

use crate::recording::record_any;
use any_runs::of_any_machine::AnyMachine;
use ddm_types::{NoMemory, Turn};
use recording_model::{RunEnd, SeedKind};
use seed_draws::SeedDraws;
use seed_draws::of_tree_config::Shape;
use std::alloc::Global;
use std::marker::Model;

/// So many turns of a seed are drawn at most.
const DRAWN_LIMIT: u32 = 4_294_967_294;

/// What recorded runs of a tree need of memory besides their machine and their turns. A contract sees the tree's parts, and of how many
/// harts it can be kept whether they have halted.
#[derive(Drop)]
pub struct Recorder {
    draws: SeedDraws,
    halted: Vec<bool>,
}

impl Model for Recorder {
    ghost use Rattle.std.specs.Prelude.{length};
    ghost use Rattle.recording.specs.Runs.{RecorderView};

    ghost Value = { RecorderView };

    ghost view = { λ r. record { shape = r.draws.shape; harts = length r.halted.items } };
}

impl Recorder {
    /// For the parts of a tree, of which this is a machine.
    pub fn new(alloc: Global, shape: &Shape, machine: &AnyMachine) -> Result<Recorder, NoMemory>
        ensures { IfOk result
            (λ r. r
            ≡ record {
              shape = shape_view shape.now;
              harts = (tree_counts (machine_state machine.now).machine).leaves;
            }) }
    {
        let draws = SeedDraws::new(alloc, shape)?;
        let halted = Vec::from_elem(alloc, false, machine.counts().leaves as usize)?;
        Ok(Recorder { draws, halted })
    }

    /// The recorded run of a seed, of which `most` turns may be recorded: they are put behind those that are there. It takes no memory.
    pub fn record(
        &mut self,
        machine: &mut AnyMachine,
        kind: SeedKind,
        seed: u64,
        most: u32,
        turns: &mut Vec<Turn>,
    ) -> RunEnd
        requires begins { CanBegin most self.old (machine_state machine.old) }
        requires room { length turns.old.items + most ≤ vec_capacity turns.old }
        ensures end { result ≡ (recording_of kind self.old.shape seed most (machine_state machine.old).machine).end }
        ensures turns { turns.new.items
            ≡ turns.old.items
            ++ (recording_of kind self.old.shape seed most (machine_state machine.old).machine).turns }
        ensures after { (machine_state machine.new).machine
            ≡ (recording_of kind self.old.shape seed most (machine_state machine.old).machine).machine }
        ensures same { self.new ≡ self.old }
        ensures kind { kind_of machine.new ≡ kind_of machine.old }
    {
        self.draws.begin(kind, seed, DRAWN_LIMIT);
        record_any(
            machine,
            &mut self.draws,
            &mut self.halted,
            turns,
            most,
            DRAWN_LIMIT,
        )
    }
}

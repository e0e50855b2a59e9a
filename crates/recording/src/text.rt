//! The schedule of a recorded run.

ghost use Rattle.std.specs.Prelude.{◌≡◌, IfOk};
ghost use Rattle.any_runs.specs.AnyMachine.Any.{machine_state};
ghost use Rattle.any_runs.specs.AnyMachine.Kind.{kind_of};
ghost use Rattle.schedule_log.specs.Shapes.{shape_view};
ghost use Rattle.recording_model.specs.Recording.{record_text};
ghost use Rattle.recording.specs.Runs.{IsStart};

use crate::recorder::Recorder;
use any_runs::of_any_machine::AnyMachine;
use any_runs::reserve;
use ddm_types::NoMemory;
use recording_model::SeedKind;
use schedule_log::write_schedule;
use seed_draws::of_tree_config::Shape;
use std::alloc::Global;

/// The text of the recorded run of a seed on a machine at its start, of which `most` turns may be recorded. All memory but that of the
/// text is taken before the first turn.
#[tactic(auto, unfolding(recording_model::specs::Recording::record_text))]
pub fn record_text(
    alloc: Global,
    shape: &Shape,
    machine: &mut AnyMachine,
    kind: SeedKind,
    seed: u64,
    most: u32,
) -> Result<Vec<u8>, NoMemory>
    requires { IsStart (shape_view shape.now) (machine_state machine.old) }
    ensures text { IfOk result
        (λ text. text.items
        ≡ record_text kind (shape_view shape.now) seed most (machine_state machine.old).machine) }
    ensures kind { kind_of machine.new ≡ kind_of machine.old }
{
    let mut recorder = Recorder::new(alloc, shape, machine)?;
    let mut turns = Vec::with_capacity(alloc, most as usize)?;
    reserve(machine, most)?;
    recorder.record(machine, kind, seed, most, &mut turns);
    write_schedule(alloc, &turns)
}

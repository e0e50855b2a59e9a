//! The text of the measured run of a seed.

ghost use Rattle.std.specs.Prelude.{◌≡◌, IfOk};
ghost use Rattle.recording.specs.AnyMachine.Any.{machine_state};
ghost use Rattle.recording.specs.AnyMachine.Kind.{kind_of};
ghost use Rattle.recording.specs.Runs.{IsStart};
ghost use Rattle.recording.specs.ScheduleLog.Shapes.{shape_view};
ghost use Rattle.measure_model.specs.Text.{measure_text};

use crate::measuring::measure_any;
use crate::tally::Tally;
use crate::text::push_text;
use ddm_types::NoMemory;
use recording::SeedKind;
use recording::of_any_machine::AnyMachine;
use recording::of_seed_draws::{SeedDraws, Shape};
use std::alloc::Global;

/// So many turns of a seed are drawn at most.
const DRAWN_LIMIT: u32 = 4_294_967_294;

/// The text of the measured run of a seed on a machine at its start, of which `most` turns may be recorded. The memory
/// doesn't grow with the run.
pub fn measure_text(
    alloc: Global,
    shape: &Shape,
    machine: &mut AnyMachine,
    kind: SeedKind,
    seed: u64,
    most: u32,
) -> Result<Vec<u8>, NoMemory>
    requires { IsStart (shape_view shape.now) (machine_state machine.old) }
    ensures text { IfOk result
        (λ text. text.items
        ≡ measure_text kind (shape_view shape.now) seed most (machine_state machine.old).machine) }
    ensures kind { kind_of machine.new ≡ kind_of machine.old }
{
    let mut draws = SeedDraws::new(alloc, shape)?;
    let mut flags = Vec::from_elem(alloc, false, machine.counts().leaves as usize)?;
    let mut tally = Tally::new(alloc, machine)?;
    draws.begin(kind, seed, DRAWN_LIMIT);
    let end = measure_any(
        machine,
        &mut draws,
        &mut flags,
        &mut tally,
        most,
        DRAWN_LIMIT,
    )?;
    let mut out = Vec::new(alloc);
    push_text(&mut out, machine, &tally, end)?;
    Ok(out)
}

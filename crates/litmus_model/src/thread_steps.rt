//! The steps of one thread.

ghost use Rattle.std.specs.Prelude.{◌≡◌, ◌++◌, ◌∷◌, [], OnOk, IfOk};
ghost use Rattle.litmus_model.specs.Program.{steps_of};

use crate::parts::PlacedStep;
use elf_load::of_ddm_types::NoMemory;
use std::alloc::Global;

#[tactic(auto, using(crate::proofs::ThreadSteps::of_thread, crate::proofs::ThreadSteps::of_other_thread))]
fn push_step(steps: &mut Vec<PlacedStep>, step: &PlacedStep, thread: u32) -> Result<(), NoMemory>
    ensures { OnOk result (steps.new.items ≡ steps.old.items ++ steps_of thread (step.now ∷ [])) }
{
    if step.thread == thread {
        steps.extend_from_slice(&[*step])?;
    }
    Ok(())
}

/// The steps of a thread.
#[tactic(auto, using(crate::proofs::ThreadSteps::steps_next, crate::proofs::ThreadSteps::steps_done))]
pub fn steps_of(
    alloc: Global,
    program: &[PlacedStep],
    thread: u32,
) -> Result<Vec<PlacedStep>, NoMemory>
    ensures { IfOk result (λ steps. steps.items ≡ steps_of thread program.now) }
{
    let mut steps = Vec::new(alloc);
    for step in program {
        push_step(&mut steps, step, thread)?;
    }
    Ok(steps)
}

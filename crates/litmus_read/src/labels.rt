//! The labels of the threads: each once, and one for each branch and jump.

ghost use Rattle.std.specs.Prelude.{◌≡◌, ◌∷◌, [], ◌||◌, List, bytes_eq};
ghost use Rattle.std.specs.List.{list_any, range_with_len};
ghost use Rattle.litmus_model.specs.declared.parts.PlacedStep.{PlacedStep as StepValue};
ghost use Rattle.litmus_model.specs.Program.{goal_of, goals_are_there, is_new, is_there, label_of, labels_differ};
ghost use Rattle.litmus_model.specs.Program.{labels_of, program_labels, thread_labels};
ghost use Rattle.litmus_text.specs.Reads.{Reads};
ghost use Rattle.litmus_read.specs.Becomes.{Judges};

use litmus_model::{Fault, Name, PlacedStep, Step, TestRefusal, same_name, steps_of};
use litmus_text::{Unread, in_line};
use std::alloc::Global;

fn label_of(step: &Step) -> Option<Name>
    ensures { result ≡ label_of step.now }
{
    match step {
        Step::Label(name) => Some(*name),
        _ => None,
    }
}

/// The label to which a step goes.
fn goal_of(step: &Step) -> Option<Name>
    ensures { result ≡ goal_of step.now }
{
    match step {
        Step::Branch { label, .. } => Some(*label),
        Step::Jump(label) => Some(*label),
        _ => None,
    }
}

#[tactic(auto, using(crate::proofs::LabelSearch::no_label, crate::proofs::LabelSearch::some_label))]
fn is_label(step: &PlacedStep, name: &Name) -> bool
    ensures { (others : List StepValue) →
        list_any (bytes_eq name.now) (labels_of (step.now ∷ others))
        ≡ (result || list_any (bytes_eq name.now) (labels_of others)) }
{
    match label_of(&step.step) {
        Some(label) => same_name(name, &label),
        None => false,
    }
}

/// Whether one of the steps is this label.
fn has_label(steps: &[PlacedStep], name: &Name) -> bool
    ensures { result ≡ list_any (bytes_eq name.now) (labels_of steps.now) }
{
    for step in steps {
        if is_label(step, name) {
            return true;
        }
    }
    false
}

fn is_new(before: &[PlacedStep], label: Option<Name>) -> bool
    ensures { result ≡ is_new (labels_of before.now) label }
{
    match label {
        Some(name) => !has_label(before, &name),
        None => true,
    }
}

fn is_there(steps: &[PlacedStep], label: Option<Name>) -> bool
    ensures { result ≡ is_there (labels_of steps.now) label }
{
    match label {
        Some(name) => has_label(steps, &name),
        None => true,
    }
}

/// Refuses a label that an earlier step is.
#[tactic(auto, using(crate::proofs::LabelSearch::label_steps))]
fn judge_differing(steps: &[PlacedStep]) -> Result<(), TestRefusal>
    ensures { Judges (labels_differ [] steps.now) result }
{
    for (at, step) in steps.iter().enumerate() {
        if !is_new(&steps[..at], label_of(&step.step)) {
            return Err(in_line(step.line, Fault::SameLabel));
        }
    }
    Ok(())
}

/// Refuses a step that goes to no label of these.
#[tactic(auto, using(crate::proofs::LabelSearch::goal_steps))]
fn judge_goals(steps: &[PlacedStep]) -> Result<(), TestRefusal>
    ensures { Judges (goals_are_there (labels_of steps.now) steps.now) result }
{
    for step in steps {
        if !is_there(steps, goal_of(&step.step)) {
            return Err(in_line(step.line, Fault::NoLabel));
        }
    }
    Ok(())
}

/// Judges the labels of one thread.
#[tactic(auto, unfolding(litmus_model::specs::Refusing::and_then))]
fn judge_thread(steps: &[PlacedStep]) -> Result<(), TestRefusal>
    ensures { Judges (thread_labels steps.now) result }
{
    judge_differing(steps)?;
    judge_goals(steps)
}

/// Judges the labels of a program, thread by thread.
#[tactic(auto, using(crate::proofs::LabelSearch::thread_steps))]
pub(crate) fn judge_labels(
    alloc: Global,
    threads: u32,
    program: &[PlacedStep],
) -> Result<(), Unread>
    ensures { Reads (λ done. program.now) (program_labels (range_with_len 0 threads) program.now) result }
{
    for thread in 0..threads {
        let steps = steps_of(alloc, program, thread)?;
        judge_thread(&steps)?;
    }
    Ok(())
}

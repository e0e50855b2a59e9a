//! A thread's own instructions, its labels as distances.

ghost use Rattle.std.specs.Prelude.{◌≡◌, ◌++◌, ◌≤◌, OnOk};
ghost use Rattle.litmus_model.specs.Image.{count_of, distance, is_label_of, label_place, own_code, resolved};
ghost use Rattle.litmus_model.specs.Sound.{instruction_count};

use elf_load::of_ddm_types::NoMemory;
use litmus_model::{Name, PlacedStep, Step, same_name};
use rv_decode::{Instr, Reg};

/// How many instructions a step is.
fn count_of(step: &Step) -> u32
    ensures { result ≡ count_of step.now }
{
    match step {
        Step::Label(_) => 0,
        _ => 1,
    }
}

fn is_label_of(name: &Name, step: &Step) -> bool
    ensures { result ≡ is_label_of name.now step.now }
{
    match step {
        Step::Label(label) => same_name(label, name),
        _ => false,
    }
}

/// How many of these steps' instructions are before a label.
#[tactic(auto, using(crate::proofs::Own::label_search, crate::proofs::Own::count_steps))]
fn label_place(name: &Name, steps: &[PlacedStep]) -> u32
    requires near { instruction_count steps.now ≤ 512 }
    ensures place { result ≡ label_place name.now steps.now }
    ensures near { result ≤ 512 }
{
    let mut place = 0;
    for step in steps {
        if is_label_of(name, &step.step) {
            return place;
        }
        place += count_of(&step.step);
    }
    place
}

/// The bytes from one instruction to another.
#[tactic(auto, unfolding(litmus_model::specs::Image::distance))]
pub(crate) fn distance(from: u32, to: u32) -> i32
    requires from { from ≤ 1048576 }
    requires to { to ≤ 1048576 }
    ensures { result ≡ distance from to }
{
    if from <= to {
        (4 * (to - from)) as i32
    } else {
        -((4 * (from - to)) as i32)
    }
}

/// The instruction of a step, the one of this number in its thread.
#[tactic(auto, using(crate::proofs::Own::none_resolved), unfolding(litmus_model::specs::Image::resolved))]
fn push_resolved(
    code: &mut Vec<Instr>,
    steps: &[PlacedStep],
    at: u32,
    step: &Step,
) -> Result<(), NoMemory>
    requires near { instruction_count steps.now ≤ 512 }
    requires at { at ≤ 512 }
    ensures { OnOk result (code.new.items ≡ code.old.items ++ resolved steps.now at step.now) }
{
    match step {
        Step::Label(_) => {}
        Step::Plain(instr) => code.push(*instr)?,
        Step::Branch {
            op,
            rs1,
            rs2,
            label,
        } => {
            code.push(Instr::Branch {
                op: *op,
                rs1: *rs1,
                rs2: *rs2,
                offset: distance(at, label_place(label, steps)),
            })?
        }
        Step::Jump(label) => {
            code.push(Instr::Jal {
                rd: Reg(0),
                offset: distance(at, label_place(label, steps)),
            })?
        }
    }
    Ok(())
}

/// A thread's own instructions.
#[tactic(auto, using(crate::proofs::Own::own_steps, crate::proofs::Own::count_steps))]
pub(crate) fn push_own(code: &mut Vec<Instr>, steps: &[PlacedStep]) -> Result<(), NoMemory>
    requires near { instruction_count steps.now ≤ 512 }
    ensures { OnOk result (code.new.items ≡ code.old.items ++ own_code steps.now) }
{
    let mut at = 0;
    for step in steps {
        push_resolved(code, steps, at, &step.step)?;
        at += count_of(&step.step);
    }
    Ok(())
}

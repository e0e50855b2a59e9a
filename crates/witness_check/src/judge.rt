//! An operation is judged by the flat machine.

ghost use Rattle.std.specs.Prelude.{◌≡◌, ◌⊎◌, ◌≤◌, ◌+◌, ◌*◌, None, Some, IfErr, IfOk};
ghost use Rattle.witness_check.specs.DdmTypes.ItemTable.{IsItemSize};
ghost use Rattle.witness_check.specs.FlatModel.Legal.{is_sc_ok, legal_step, same_effect};
ghost use Rattle.start_memory.specs.Memory.{memory_items};
ghost use Rattle.witness_check.specs.Start.{start_refusal};
ghost use Rattle.witness_check.specs.Reader.{StepGives, judge_at_start, setting};
ghost use Rattle.witness_check.specs.declared.refusal.CheckRefusal.TheVariants as refusal;

use crate::of_ddm_types::{Code, Effect, Items, MOST_ITEMS, Op, Start, count_items};
use crate::of_elf_load::{Image, copied_code};
use crate::refusal::CheckRefusal;
use rv_flat::FlatMachine;
use start_memory::{first_overlap, spans_of, words_of_items};
use std::alloc::Global;
use std::marker::Model;

/// The flat machine that takes the steps which a witness names, with its code and items. A contract sees the program and
/// the machine of the definitions.
#[derive(Drop)]
pub(crate) struct Judge {
    code: Code,
    items: Items,
    machine: FlatMachine,
    harts: u32,
}

impl Model for Judge {
    ghost use Rattle.witness_check.specs.Reader.{HasProgram, JudgeView};

    ghost Value = { JudgeView };

    ghost view = { λ j. record { program = record { code = j.code; items = j.items }; machine = j.machine.machine } };

    ghost invariant = { λ j. HasProgram j.machine j.items j.harts };
}

fn is_sc_ok(effect: &Effect) -> bool
    ensures { result ≡ is_sc_ok effect.now }
{
    matches!(effect, Effect::ScOk { .. })
}

fn same_effect(made: &Effect, said: &Effect) -> bool
    ensures { result ≡ same_effect made.now said.now }
{
    made == said
}

// The items of a program that has a start.
#[tactic(auto, unfolding(crate::specs::Start::start_refusal, start_memory::specs::Memory::memory_items))]
fn items_of(
    alloc: Global,
    image: &Image,
    start: Start,
    item_bytes: u32,
) -> Result<Items, CheckRefusal>
    requires size { IsItemSize item_bytes }
    requires stacks { start.stack_base + start.harts * start.stack_bytes ≤ 4294967280 }
    ensures items { IfOk result (λ items. items ≡ memory_items start item_bytes image.now.segments) }
    ensures accepted { IfOk result (λ items. start_refusal (setting image.now start item_bytes) ≡ None) }
    ensures refused { IfErr result (λ r. (r ≡ refusal.NoMemory) ⊎ (start_refusal (setting image.now start item_bytes) ≡ Some r)) }
{
    let spans = spans_of(alloc, &image.segments, start)?;
    let count = count_items(alloc, &spans, item_bytes)?;
    if count > u64::from(MOST_ITEMS) {
        return Err(CheckRefusal::TooManyItems(count));
    }
    match first_overlap(&image.segments, start) {
        None => Ok(Items::from_spans(alloc, &spans, item_bytes)?),
        Some(met) => Err(CheckRefusal::StackOverlap {
            hart: met.hart,
            header: met.header,
        }),
    }
}

impl Judge {
    /// Before the first operation, where there is a start.
    pub(crate) fn new(
        alloc: Global,
        image: &Image,
        start: Start,
        item_bytes: u32,
    ) -> Result<Judge, CheckRefusal>
        requires size { IsItemSize item_bytes }
        requires harts { start.harts ≤ 64 }
        requires stacks { start.stack_base + start.harts * start.stack_bytes ≤ 4294967280 }
        ensures made { IfOk result (λ judge. judge ≡ judge_at_start (setting image.now start item_bytes)) }
        ensures accepted { IfOk result (λ judge. start_refusal (setting image.now start item_bytes) ≡ None) }
        ensures refused { IfErr result (λ r. (r ≡ refusal.NoMemory) ⊎ (start_refusal (setting image.now start item_bytes) ≡ Some r)) }
    {
        let items = items_of(alloc, image, start, item_bytes)?;
        let words = words_of_items(alloc, &image.segments, &items, item_bytes)?;
        let machine = FlatMachine::new(alloc, &items, words, item_bytes, start)?;
        let code = copied_code(alloc, image)?;
        Ok(Judge {
            code,
            items,
            machine,
            harts: start.harts,
        })
    }

    /// Takes the step that an operation names, and says whether there was one. Its key isn't looked at.
    pub(crate) fn step(&mut self, op: &Op) -> bool
        ensures step { StepGives (legal_step self.old.program.code self.old.program.items self.old.machine op.now) result self.new.machine }
        ensures program { self.new.program ≡ self.old.program }
    {
        if op.hart.0 >= self.harts || self.machine.pc(op.hart) != op.pc {
            return false;
        }
        let sc_ok = is_sc_ok(&op.effect);
        match self.machine.step(&self.code, &self.items, op.hart, sc_ok) {
            Ok(effect) => same_effect(&effect, &op.effect),
            Err(_) => false,
        }
    }
}

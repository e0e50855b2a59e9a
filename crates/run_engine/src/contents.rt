//! Items and words of a machine's start, and whether it has one.

ghost use Rattle.std.specs.Prelude.{◌≡◌, ℕ, ◌^◌, ◌⊎◌, ◌≤◌, map, All, None, Some, IfOk, IfErr, OnOk};
ghost use Rattle.run_engine.specs.DdmTypes.ItemTable.{item_count, items_of, span_end};
ghost use Rattle.run_engine.specs.TreeModel.Start.Memory.{item_words, start_items};
ghost use Rattle.run_engine.specs.TreeModel.Start.Sources.{stack_spans};
ghost use Rattle.run_engine.specs.TreeModel.Start.Machine.{overlap_from, start_refusal};
ghost use Rattle.std.specs.Option.{option_map};
ghost use Rattle.run_engine.specs.Build.{build_refusal, has_bytes, refusal_of};
ghost use Rattle.run_engine.specs.declared.refusal.BuildRefusal.TheVariants as refusal;

use crate::harts::start_of_harts;
use crate::memory::item_words;
use crate::of_ddm_types::{ItemId, Items, MOST_ITEMS, NoMemory, Span, Words, count_items};
use crate::of_elf_load::{Image, Segment};
use crate::refusal::BuildRefusal;
use crate::tree::{item_bytes, place_count};
use start_memory::{first_overlap, spans_of};
use std::alloc::Global;
use tree_config::TreeConfig;

// Whether a stack meets a segment.
fn judge_stacks(tree: &TreeConfig, image: &Image) -> Result<(), BuildRefusal>
    ensures none { OnOk result (overlap_from image.now.segments 0 (stack_spans tree.now) ≡ None) }
    ensures refused { IfErr result (λ r. option_map refusal_of (overlap_from image.now.segments 0 (stack_spans tree.now)) ≡ Some r) }
{
    match first_overlap(&image.segments, start_of_harts(tree, image)) {
        None => Ok(()),
        Some(met) => Err(BuildRefusal::StackOverlap {
            hart: met.hart,
            header: met.header,
        }),
    }
}

// Whether the machine has a start, with this many items.
#[tactic(auto, unfolding(crate::specs::Opened::start_refusal))]
fn judge(tree: &TreeConfig, image: &Image, count: u64) -> Result<(), BuildRefusal>
    requires { count ≡ item_count (start_items tree.now image.now) }
    ensures none { OnOk result (start_refusal tree.now image.now ≡ None) }
    ensures refused { IfErr result (λ r. build_refusal tree.now image.now ≡ Some r) }
{
    if count > u64::from(MOST_ITEMS) {
        return Err(BuildRefusal::TooManyItems(count));
    }
    judge_stacks(tree, image)?;
    let places = place_count(tree);
    if count > u64::from(places) {
        return Err(BuildRefusal::NoPlace(ItemId(places)));
    }
    Ok(())
}

fn has_bytes(span: &Span) -> bool
    ensures { result ≡ has_bytes span.now }
{
    span.bytes > 0
}

// Leaves the spans that have bytes. The others have no part in any item, and each item would be compared with each of them.
fn keep_filled(spans: &mut Vec<Span>)
    ensures items { (size : ℕ) → items_of size spans.new.items ≡ items_of size spans.old.items }
    ensures ends { All (λ span. span_end span ≤ 2 ^ 32) spans.old.items → All (λ span. span_end span ≤ 2 ^ 32) spans.new.items }
{
    spans.retain(|span| has_bytes(span));
}

/// The items of a machine that has a start.
#[tactic(auto, unfolding(crate::specs::Opened::start_items))]
pub fn items(alloc: Global, tree: &TreeConfig, image: &Image) -> Result<Items, BuildRefusal>
    ensures items { IfOk result (λ items. items ≡ start_items tree.now image.now) }
    ensures none { IfOk result (λ items. start_refusal tree.now image.now ≡ None) }
    ensures refused { IfErr result (λ r. (r ≡ refusal.NoMemory) ⊎ (build_refusal tree.now image.now ≡ Some r)) }
{
    let mut spans = spans_of(alloc, &image.segments, start_of_harts(tree, image))?;
    let count = count_items(alloc, &spans, item_bytes(tree))?;
    judge(tree, image, count)?;
    keep_filled(&mut spans);
    Ok(Items::from_spans(alloc, &spans, item_bytes(tree))?)
}

/// The words of each item.
#[tactic(auto, using(crate::proofs::ItemWords::more_item_words))]
pub fn words<const WORDS: usize>(
    alloc: Global,
    segments: &[Segment],
    items: &Items,
) -> Result<Vec<Words<WORDS>>, NoMemory>
    requires { WORDS ≤ 16 }
    ensures { IfOk result (λ words. words.items ≡ map (λ row. item_words WORDS segments.now row.address) items.now.rows) }
{
    let mut words = Vec::with_capacity(alloc, items.len() as usize)?;
    for item in 0..items.len() {
        words.push(item_words(segments, items.address(ItemId(item))))?;
    }
    Ok(words)
}

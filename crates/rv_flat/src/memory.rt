//! The words of the flat machine.

ghost use Rattle.std.specs.Prelude.{◌≡◌, ◌⊎◌, ◌*◌, ◌/◌, ◌<◌, ◌≤◌, false, None, Some, IfOk, length, slice_index};
ghost use Rattle.std.specs.Prelude.{slice_index_or, slice_set, []};
ghost use Rattle.rv_flat.specs.FlatModel.Hart.{ask_of, finish_of};
ghost use Rattle.rv_flat.specs.DdmTypes.ItemTable.{IsItemSize};
ghost use Rattle.rv_hart.specs.Steps.{IsReady};
ghost use Rattle.rv_flat.specs.ItemWords.{memory_size, memory_words, words_by_item};
ghost use Rattle.rv_flat.specs.Asks.{IsOfNoItem};

use crate::flat_hart::FlatHart;
use crate::of_ddm_types::{Code, Effect, ItemId, Items, NoMemory, Words};
use std::alloc::Global;

/// The words of all items: items of 4 words, or of 16.
#[derive(Drop)]
pub enum Memory {
    Narrow(Vec<Words<4>>),
    Wide(Vec<Words<16>>),
}

/// The words of this many items, which lie one behind the other.
fn cut_into_items<const WORDS: usize>(
    alloc: Global,
    words: &[u32],
    count: usize,
) -> Result<Vec<Words<WORDS>>, NoMemory>
    requires { count * WORDS ≡ length words.now }
    ensures { IfOk result (λ all. all.items ≡ words_by_item WORDS count words.now) }
{
    let mut all = Vec::new(alloc);
    for item in 0..count {
        let start = item * WORDS;
        let mut w = [0; WORDS];
        w.copy_from_slice(&words[start..start + WORDS]);
        all.push(Words { w })?;
    }
    Ok(all)
}

/// Carries out a hart's next instruction on the words of this item.
fn finish_on<const WORDS: usize>(
    all: &mut [Words<WORDS>],
    item: ItemId,
    hart: &mut FlatHart,
    code: &Code,
    items: &Items,
    sc_ok: bool,
    reserved: Option<ItemId>,
) -> Effect
    requires inside { item < length all.old }
    requires running { hart.old.hart.halt ≡ None }
    requires ready { IsReady (ask_of code.now items.now hart.old.hart) }
    requires size { 4 * WORDS ≡ items.now.size }
    ensures effect { let words = slice_index_or all.old item [] in
        result ≡ (finish_of code.now items.now hart.old.hart words sc_ok).effect }
    ensures hart { let words = slice_index_or all.old item [] in
        hart.new ≡ record { hart = (finish_of code.now items.now hart.old.hart words sc_ok).hart; reserved = reserved } }
    ensures words { let words = slice_index_or all.old item [] in
        all.new ≡ slice_set all.old item (finish_of code.now items.now hart.old.hart words sc_ok).words }
{
    let words = &mut all[item.0 as usize];
    hart.finish(code, items, words, sc_ok, reserved)
}

impl Memory {
    /// The memory that has these words, all of one item behind those of another.
    pub fn new(
        alloc: Global,
        words: &[u32],
        count: u32,
        item_bytes: u32,
    ) -> Result<Memory, NoMemory>
        requires size { IsItemSize item_bytes }
        requires whole { count * (item_bytes / 4) ≡ length words.now }
        ensures words { IfOk result (λ memory. memory_words memory ≡ words_by_item (item_bytes / 4) count words.now) }
        ensures size { IfOk result (λ memory. memory_size memory ≡ item_bytes) }
    {
        let count = count as usize;
        if item_bytes == 16 {
            Ok(Memory::Narrow(cut_into_items(alloc, words, count)?))
        } else {
            Ok(Memory::Wide(cut_into_items(alloc, words, count)?))
        }
    }

    /// A word of an item.
    pub fn word(&self, item: ItemId, place: usize) -> u32
        requires item { item < length (memory_words self.now) }
        requires place { 4 * place < memory_size self.now }
        ensures { result ≡ slice_index (slice_index_or (memory_words self.now) item []) place }
    {
        match self {
            Memory::Narrow(all) => all[item.0 as usize].w[place],
            Memory::Wide(all) => all[item.0 as usize].w[place],
        }
    }

    /// Carries out a hart's next instruction on the words of this item, after which the hart has
    /// `reserved` as its reservation.
    pub fn finish_on(
        &mut self,
        item: ItemId,
        hart: &mut FlatHart,
        code: &Code,
        items: &Items,
        sc_ok: bool,
        reserved: Option<ItemId>,
    ) -> Effect
        requires inside { item < length (memory_words self.old) }
        requires running { hart.old.hart.halt ≡ None }
        requires ready { IsReady (ask_of code.now items.now hart.old.hart) }
        requires size { memory_size self.old ≡ items.now.size }
        ensures effect { let words = slice_index_or (memory_words self.old) item [] in
            result ≡ (finish_of code.now items.now hart.old.hart words sc_ok).effect }
        ensures hart { let words = slice_index_or (memory_words self.old) item [] in
            hart.new ≡ record { hart = (finish_of code.now items.now hart.old.hart words sc_ok).hart; reserved = reserved } }
        ensures words { let words = slice_index_or (memory_words self.old) item [] in
            memory_words self.new ≡ slice_set (memory_words self.old) item (finish_of code.now items.now hart.old.hart words sc_ok).words }
        ensures size { memory_size self.new ≡ memory_size self.old }
    {
        match self {
            Memory::Narrow(all) => finish_on(all, item, hart, code, items, sc_ok, reserved),
            Memory::Wide(all) => finish_on(all, item, hart, code, items, sc_ok, reserved),
        }
    }

    /// Carries out a hart's next instruction, which needs no words. Its reservation stays.
    #[tactic(auto, using(crate::proofs::Asked::plain_effect, crate::proofs::Asked::plain_hart))]
    pub fn finish_without(&self, hart: &mut FlatHart, code: &Code, items: &Items) -> Effect
        requires plain { IsOfNoItem (ask_of code.now items.now hart.old.hart) }
        requires running { hart.old.hart.halt ≡ None }
        requires size { memory_size self.now ≡ items.now.size }
        ensures effect { result ≡ (finish_of code.now items.now hart.old.hart [] false).effect }
        ensures hart { hart.new
            ≡ record {
              hart = (finish_of code.now items.now hart.old.hart [] false).hart;
              reserved = hart.old.reserved;
            } }
    {
        let reserved = hart.reserved();
        match self {
            Memory::Narrow(_) => {
                hart.finish(code, items, &mut Words { w: [0; 4] }, false, reserved)
            }
            Memory::Wide(_) => {
                hart.finish(code, items, &mut Words { w: [0; 16] }, false, reserved)
            }
        }
    }
}

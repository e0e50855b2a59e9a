//! The image of a test.

ghost use Rattle.std.specs.Prelude.{◌≡◌, ◌+◌, ◌++◌, ◌≤◌, All, IfOk, Ok, OnOk, length, option_copied, nat_eq, replicate};
ghost use Rattle.std.specs.List.{position_or_len};
ghost use Rattle.rv_decode.specs.Valid.{IsValid};
ghost use Rattle.litmus_model.specs.Kept.{test_from};
ghost use Rattle.litmus_model.specs.Sound.{IsSound};
ghost use Rattle.litmus_model.specs.Image.{begins_from, block_of, blocks_of, code_bytes, code_of, item_of, leaf_word};
ghost use Rattle.litmus_model.specs.Image.{memory_of, placed_image, places_of, test_image, test_segments};
ghost use Rattle.litmus_image.specs.Made.{Assembles, all_of, leaf_words};

use crate::instructions::{jump_by_number, push_prologue};
use crate::layout::{MEMORY, first_value, word_of};
use crate::own_code::{distance, push_own};
use crate::places::{Unmade, places_of};
use elf_load::of_ddm_types::NoMemory;
use elf_load::{Segment, write_image};
use litmus_model::{Name, Runs, Target, Test, steps_of};
use rv_decode::{Instr, Reg, encode};
use std::alloc::Global;

/// Where the code begins, with the first instruction.
const ENTRY: u32 = 0x1_0000;

/// All instructions of a thread.
#[tactic(auto, using(crate::proofs::Blocks::whole_block))]
fn push_block(
    alloc: Global,
    code: &mut Vec<Instr>,
    runs: Runs,
    test: &Test,
    item_bytes: u32,
    thread: u32,
) -> Result<(), NoMemory>
    requires sound { IsSound (test_from test.now) }
    requires small { item_bytes ≤ 64 }
    ensures { OnOk result (code.new.items ≡ code.old.items ++ block_of runs (test_from test.now) item_bytes thread) }
{
    let steps = steps_of(alloc, &test.program, thread)?;
    push_prologue(code, runs, test, item_bytes, thread)?;
    push_own(code, &steps)?;
    code.push(Instr::Ebreak)?;
    Ok(())
}

/// The number of the next instruction after these, which begin with this number.
fn number_after(first: u32, code: &[Instr]) -> u32
    requires first { first ≤ 68 }
    requires few { length code.now ≤ 65536 }
    ensures { result ≡ first + length code.now }
{
    first + code.len() as u32
}

/// The threads' instructions, and the numbers of their first ones among all.
#[derive(Drop)]
struct Blocks {
    code: Vec<Instr>,
    begins: Vec<u32>,
}

#[tactic(auto, using(crate::proofs::Blocks::no_blocks, crate::proofs::Blocks::no_begins, crate::proofs::Blocks::all_blocks))]
fn blocks_of(
    alloc: Global,
    runs: Runs,
    test: &Test,
    item_bytes: u32,
    first: u32,
) -> Result<Blocks, NoMemory>
    requires sound { IsSound (test_from test.now) }
    requires small { item_bytes ≤ 64 }
    requires few { test.now.threads ≤ 64 }
    requires first { first ≤ 68 }
    ensures code { IfOk result (λ blocks. blocks.code.items ≡ all_of (blocks_of runs (test_from test.now) item_bytes)) }
    ensures begins { IfOk result (λ blocks. blocks.begins.items ≡ begins_from first (blocks_of runs (test_from test.now) item_bytes)) }
{
    let mut code = Vec::new(alloc);
    let mut begins = Vec::new(alloc);
    for thread in 0..test.threads {
        begins.push(number_after(first, &code))?;
        push_block(alloc, &mut code, runs, test, item_bytes, thread)?;
    }
    Ok(Blocks { code, begins })
}

/// The thread that is placed on a leaf; how many threads there are, where none is.
#[tactic(auto, using(litmus_model::proofs::Searches::position_search))]
fn thread_on(leaf: u32, places: &[u32]) -> usize
    ensures thread { result ≡ position_or_len (nat_eq leaf) places.now }
    ensures inside { result ≤ length places.now }
{
    for (thread, place) in places.iter().enumerate() {
        if leaf == *place {
            return thread;
        }
    }
    places.len()
}

/// A jump to the thread that is placed on a leaf, or an end.
#[tactic(auto, using(crate::proofs::Blocks::near_begin), unfolding(litmus_model::specs::Image::leaf_word))]
fn leaf_word(leaf: u32, places: &[u32], begins: &[u32]) -> Instr
    requires leaf { leaf ≤ 64 }
    requires same { length begins.now ≡ length places.now }
    requires near { All (λ begin. begin ≤ 65536) begins.now }
    ensures { result ≡ leaf_word places.now begins.now leaf }
{
    let thread = thread_on(leaf, places);
    if thread == places.len() {
        return Instr::Ebreak;
    }
    Instr::Jal {
        rd: Reg(0),
        offset: distance(4 + leaf, begins[thread]),
    }
}

/// The words of the leaves.
#[tactic(auto, using(crate::proofs::Blocks::no_leaves, crate::proofs::Blocks::more_leaves))]
fn leaf_words(
    alloc: Global,
    leaves: u32,
    places: &[u32],
    begins: &[u32],
) -> Result<Vec<Instr>, NoMemory>
    requires leaves { leaves ≤ 64 }
    requires same { length begins.now ≡ length places.now }
    requires near { All (λ begin. begin ≤ 65536) begins.now }
    ensures { IfOk result (λ code. code.items ≡ leaf_words places.now begins.now leaves) }
{
    let mut code = Vec::new(alloc);
    for leaf in 0..leaves {
        code.push(leaf_word(leaf, places, begins))?;
    }
    Ok(code)
}

#[tactic(auto, using(crate::proofs::Bytes::code_next, crate::proofs::Bytes::code_done))]
fn push_words(bytes: &mut Vec<u8>, code: &[Instr]) -> Result<(), NoMemory>
    requires { All IsValid code.now }
    ensures { OnOk result (bytes.new.items ≡ bytes.old.items ++ code_bytes code.now) }
{
    for instr in code {
        bytes.extend_from_slice(&encode(instr).to_le_bytes())?;
    }
    Ok(())
}

/// The bytes of the code.
#[tactic(auto, using(crate::proofs::Blocks::begins_of_blocks, crate::proofs::Valid::valid_pieces, crate::proofs::Bytes::whole_code))]
fn code_of(
    alloc: Global,
    runs: Runs,
    test: &Test,
    leaves: u32,
    item_bytes: u32,
    places: &[u32],
) -> Result<Vec<u8>, NoMemory>
    requires sound { IsSound (test_from test.now) }
    requires small { item_bytes ≤ 64 }
    requires leaves { leaves ≤ 64 }
    requires threads { test.now.threads ≤ leaves }
    requires places { length places.now ≡ test.now.threads }
    ensures { IfOk result (λ bytes. bytes.items ≡ code_bytes (code_of leaves places.now (blocks_of runs (test_from test.now) item_bytes))) }
{
    let blocks = blocks_of(alloc, runs, test, item_bytes, 4 + leaves)?;
    let words = leaf_words(alloc, leaves, places, &blocks.begins)?;
    let mut bytes = Vec::new(alloc);
    push_words(&mut bytes, &jump_by_number())?;
    push_words(&mut bytes, &words)?;
    push_words(&mut bytes, &blocks.code)?;
    Ok(bytes)
}

#[tactic(auto, using(crate::proofs::Bytes::zeros_none, crate::proofs::Bytes::zeros_more))]
fn push_zeros(bytes: &mut Vec<u8>, count: u32) -> Result<(), NoMemory>
    ensures { OnOk result (bytes.new.items ≡ bytes.old.items ++ replicate count 0) }
{
    for number in 0..count {
        let _ = number;
        bytes.push(0)?;
    }
    Ok(())
}

/// The item of a location: its first word, and zeros.
#[tactic(auto, using(crate::proofs::Bytes::whole_item))]
fn push_item(bytes: &mut Vec<u8>, test: &Test, item_bytes: u32, name: &Name) -> Result<(), NoMemory>
    requires few { length test.now.locations.items ≤ 256 }
    requires large { 4 ≤ item_bytes }
    requires small { item_bytes ≤ 64 }
    ensures { OnOk result (bytes.new.items ≡ bytes.old.items ++ item_of (test_from test.now) item_bytes name.now) }
{
    let value = first_value(test, &Target::Location(*name));
    bytes.extend_from_slice(&word_of(test, item_bytes, &value).to_le_bytes())?;
    push_zeros(bytes, item_bytes - 4)
}

/// An item for each location.
#[tactic(auto, using(crate::proofs::Bytes::items_next, crate::proofs::Bytes::items_done, crate::proofs::Bytes::all_items))]
fn memory_of(alloc: Global, test: &Test, item_bytes: u32) -> Result<Vec<u8>, NoMemory>
    requires few { length test.now.locations.items ≤ 256 }
    requires large { 4 ≤ item_bytes }
    requires small { item_bytes ≤ 64 }
    ensures { IfOk result (λ bytes. bytes.items ≡ memory_of (test_from test.now) item_bytes) }
{
    let mut bytes = Vec::new(alloc);
    for name in &test.locations {
        push_item(&mut bytes, test, item_bytes, name)?;
    }
    Ok(bytes)
}

#[tactic(auto, unfolding(litmus_model::specs::Image::test_segments))]
fn test_segments(alloc: Global, code: Vec<u8>, memory: Vec<u8>) -> Result<Vec<Segment>, NoMemory>
    requires code { length code.items ≤ 262144 }
    requires memory { length memory.items ≤ 262144 }
    ensures { IfOk result (λ segments. segments.items ≡ test_segments code.items memory.items) }
{
    let mut segments = Vec::new(alloc);
    let code_bytes = code.len() as u32;
    let memory_bytes = memory.len() as u32;
    segments.push(Segment {
        header: 0,
        vaddr: ENTRY,
        flags: 5,
        bytes: code,
        memsz: code_bytes,
    })?;
    segments.push(Segment {
        header: 1,
        vaddr: MEMORY,
        flags: 6,
        bytes: memory,
        memsz: memory_bytes,
    })?;
    Ok(segments)
}

/// The image of a test whose threads are on these leaves.
#[tactic(auto, using(crate::proofs::Bytes::short_image), unfolding(litmus_model::specs::Image::placed_image))]
fn placed_image(
    alloc: Global,
    runs: Runs,
    test: &Test,
    leaves: u32,
    item_bytes: u32,
    places: &[u32],
) -> Result<Vec<u8>, NoMemory>
    requires sound { IsSound (test_from test.now) }
    requires large { 4 ≤ item_bytes }
    requires small { item_bytes ≤ 64 }
    requires leaves { leaves ≤ 64 }
    requires threads { test.now.threads ≤ leaves }
    requires places { length places.now ≡ test.now.threads }
    ensures { IfOk result (λ bytes. bytes.items ≡ placed_image runs (test_from test.now) leaves item_bytes places.now) }
{
    let code = code_of(alloc, runs, test, leaves, item_bytes, places)?;
    let memory = memory_of(alloc, test, item_bytes)?;
    let segments = test_segments(alloc, code, memory)?;
    write_image(alloc, ENTRY, &segments)
}

/// The image of a test, and the leaves of its threads.
#[derive(Drop)]
pub struct TestImage {
    pub bytes: Vec<u8>,
    pub places: Vec<u32>,
}

/// The image of a test for a tree with so many leaves and bytes in an item. Places are the leaves of the threads.
#[tactic(auto, using(crate::proofs::Bytes::placed), unfolding(litmus_model::specs::Image::test_image))]
pub fn assemble(
    alloc: Global,
    runs: Runs,
    test: &Test,
    leaves: u32,
    item_bytes: u32,
    places: Option<&[u32]>,
) -> Result<TestImage, Unmade>
    requires sound { IsSound (test_from test.now) }
    requires large { 4 ≤ item_bytes }
    requires small { item_bytes ≤ 64 }
    requires leaves { leaves ≤ 64 }
    ensures image { Assembles (test_image runs (test_from test.now) leaves item_bytes (option_copied places.entry)) result }
    ensures places { IfOk result
        (λ made. places_of test.now.threads leaves (option_copied places.entry) ≡ Ok made.places.items) }
{
    let places = places_of(alloc, test.threads, leaves, places)?;
    let bytes = placed_image(alloc, runs, test, leaves, item_bytes, &places)?;
    Ok(TestImage { bytes, places })
}

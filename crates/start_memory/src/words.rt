//! The words of memory at the start.

ghost use Rattle.std.specs.Prelude.{◌≡◌, ◌≤◌, ◌^◌, ◌&&◌, ◌||◌, ◌+◌, ◌-◌, ◌*◌, ◌/◌, ◌++◌, ◌∷◌, [], length, nat_le};
ghost use Rattle.std.specs.Prelude.{nat_lt, slice_index_or, flat_map, IfOk, OnOk};
ghost use Rattle.start_memory.specs.DdmTypes.ItemTable.{IsItemSize};
ghost use Rattle.start_memory.specs.TreeModel.Start.Memory.{byte_at, item_words, memory_word};

use crate::of_ddm_types::{ItemId, Items, NoMemory};
use byteorder::{ByteOrder, LittleEndian};
use elf_load::{Segment, segment_word};
use std::alloc::Global;

fn has_byte(segment: &Segment, a: u64) -> bool
    ensures { result ≡ (nat_le segment.now.vaddr a && nat_lt a (segment.now.vaddr + segment.now.memsz)) }
{
    let first = u64::from(segment.vaddr);
    first <= a && a < first + u64::from(segment.memsz)
}

// A byte of a segment: those behind its file bytes are 0.
fn byte_of(segment: &Segment, a: u64) -> u8
    requires { segment.now.vaddr ≤ a }
    ensures { result ≡ slice_index_or segment.now.bytes (a - segment.now.vaddr) 0 }
{
    let at = a - u64::from(segment.vaddr);
    if at < segment.bytes.len() as u64 {
        segment.bytes[at as usize]
    } else {
        0
    }
}

// A byte of memory at the start.
fn byte_at(segments: &[Segment], a: u64) -> u8
    ensures { result ≡ byte_at segments.now a }
{
    for segment in segments {
        if has_byte(segment, a) {
            return byte_of(segment, a);
        }
    }
    0
}

/// A word of memory that is looked up byte by byte: its bytes may lie in several segments.
#[tactic(auto, unfolding(crate::specs::Opened::memory_word))]
fn word_by_bytes(segments: &[Segment], a: u64) -> u32
    requires { a ≤ 2 ^ 33 }
    ensures { result ≡ memory_word segments.now a }
{
    u32::from_le_bytes([
        byte_at(segments, a),
        byte_at(segments, a + 1),
        byte_at(segments, a + 2),
        byte_at(segments, a + 3),
    ])
}

/// The segment has none of so many bytes from this address on. Of one without memory that lies among them it isn't said.
fn is_apart(segment: &Segment, a: u64, count: u64) -> bool
    requires { a + count ≤ 2 ^ 34 }
    ensures { result ≡ (nat_le (a + count) segment.now.vaddr || nat_le (segment.now.vaddr + segment.now.memsz) a) }
{
    let first = u64::from(segment.vaddr);
    a + count <= first || first + u64::from(segment.memsz) <= a
}

/// The segment has all four bytes of the word.
fn has_word(segment: &Segment, a: u64) -> bool
    requires { a ≤ 2 ^ 33 }
    ensures { result ≡ (nat_le segment.now.vaddr a && nat_le (a + 4) (segment.now.vaddr + segment.now.memsz)) }
{
    let first = u64::from(segment.vaddr);
    let past = first + u64::from(segment.memsz);
    first <= a && a + 4 <= past
}

/// A word of memory at the start: the first segment that has a byte of it mostly has all.
pub fn memory_word(segments: &[Segment], a: u64) -> u32
    requires { a ≤ 2 ^ 33 }
    ensures { result ≡ memory_word segments.now a }
{
    for segment in segments {
        if has_word(segment, a) {
            return segment_word(segment, a);
        }
        if !is_apart(segment, a, 4) {
            return word_by_bytes(segments, a);
        }
    }
    0
}

/// The words of memory from this address on, each looked up alone: they may lie in several segments. Apart, so that the way of most
/// items stays short.
#[inline(never)]
fn each_word(segments: &[Segment], a: u64, words: &mut [u32])
    requires { a + 4 * length words.old ≤ 2 ^ 33 }
    ensures { words.new ≡ item_words (length words.old) segments.now a }
{
    for number in 0..words.len() {
        words[number] = memory_word(segments, a + 4 * number as u64);
    }
}

/// The segment has all of so many bytes from this address on, and the file has them.
fn has_in_file(segment: &Segment, a: u64, count: u64) -> bool
    requires { a + count ≤ 2 ^ 34 }
    ensures { result ≡ (nat_le segment.now.vaddr a && nat_le (a + count) (segment.now.vaddr + segment.now.memsz)
        && nat_le (a + count) (segment.now.vaddr + length segment.now.bytes)) }
{
    let first = u64::from(segment.vaddr);
    let past = first + u64::from(segment.memsz);
    let past_file = first + segment.bytes.len() as u64;
    first <= a && a + count <= past && a + count <= past_file
}

/// The words that the file has of the segment from this address on.
fn file_words(segment: &Segment, a: u64, words: &mut [u32])
    requires above { segment.now.vaddr ≤ a }
    requires below { a + 4 * length words.old ≤ segment.now.vaddr + segment.now.memsz }
    requires file { a + 4 * length words.old ≤ segment.now.vaddr + length segment.now.bytes }
    ensures { words.new ≡ item_words (length words.old) (segment.now ∷ []) a }
{
    let offset = (a - u64::from(segment.vaddr)) as usize;
    LittleEndian::read_u32_into(&segment.bytes[offset..offset + 4 * words.len()], words);
}

/// The words of memory at the start from this address on. Mostly the file has all of them, in one segment, and they are read
/// together.
#[inline]
pub fn memory_words(segments: &[Segment], a: u64, words: &mut [u32])
    requires { a + 4 * length words.old ≤ 2 ^ 33 }
    ensures { words.new ≡ item_words (length words.old) segments.now a }
{
    let count = 4 * words.len() as u64;
    for segment in segments {
        if has_in_file(segment, a, count) {
            return file_words(segment, a, words);
        }
        if !is_apart(segment, a, count) {
            return each_word(segments, a, words);
        }
    }
    words.fill(0);
}

// Puts the words of the item at this address at the end.
fn push_item(
    words: &mut Vec<u32>,
    segments: &[Segment],
    address: u32,
    width: u32,
) -> Result<(), NoMemory>
    requires { width ≤ 16 }
    ensures { OnOk result (words.new.items ≡ words.old.items ++ item_words width segments.now address) }
{
    let mut item = [0; 16];
    let item = &mut item[..width as usize];
    memory_words(segments, u64::from(address), item);
    words.extend_from_slice(item)?;
    Ok(())
}

/// The words of all items, of one item behind those of another.
pub fn words_of_items(
    alloc: Global,
    segments: &[Segment],
    items: &Items,
    item_bytes: u32,
) -> Result<Vec<u32>, NoMemory>
    requires { IsItemSize item_bytes }
    ensures { IfOk result (λ words. words.items
        ≡ flat_map (λ row. item_words (item_bytes / 4) segments.now row.address) items.now.rows) }
{
    let width = item_bytes / 4;
    let mut words = Vec::with_capacity(alloc, items.len() as usize * width as usize)?;
    for item in 0..items.len() {
        push_item(&mut words, segments, items.address(ItemId(item)), width)?;
    }
    Ok(words)
}

//! Images, trees and schedules for tests.

ghost use Rattle.std.specs.Prelude.{◌≤◌, All, IfOk, length};
ghost use Rattle.asked_commands.specs.ElfLoad.ImageRule.{FitsMemory};
ghost use Rattle.asked_commands.specs.Short.{IsShort};

use crate::of_elf_load::{Segment, write_image};
use std::alloc::Global;
use std::test::Fail;

/// Where the code and the data of these images begin.
const CODE: u32 = 0x1_0000;

pub const DATA: u32 = 0x2_0000;

/// The flags of a segment: executable and readable, or writable and readable.
const EXECUTABLE: u32 = 5;

pub const WRITABLE: u32 = 6;

/// The files that a command names.
#[derive(Drop)]
pub struct Files {
    pub tree: Vec<u8>,
    pub image: Vec<u8>,
    pub schedule: Vec<u8>,
}

/// What a tree file says.
#[derive(Clone, Copy)]
pub struct TreeFile {
    pub shape: &'static str,
    pub ways: u32,
    pub sets: u32,
    pub buffer: u32,
    pub parking: u32,
    pub down: u32,
    pub requests: u32,
    pub replies: u32,
    pub stack_base: u32,
    pub stack_bytes: u32,
    pub item_bytes: u32,
}

/// A tree of this shape with these numbers of ways, sets and places in buffers and parkings, with lists of 16 entries, no stacks, and
/// items of 16 bytes.
pub fn tree(shape: &'static str, numbers: [u32; 4]) -> TreeFile {
    let [ways, sets, buffer, parking] = numbers;
    TreeFile {
        shape,
        ways,
        sets,
        buffer,
        parking,
        down: 16,
        requests: 16,
        replies: 16,
        stack_base: 196_608,
        stack_bytes: 0,
        item_bytes: 16,
    }
}

/// A leaf of four ways and a stack of 16 bytes.
pub fn one_leaf() -> TreeFile {
    TreeFile {
        stack_bytes: 16,
        ..tree("(L)", [4, 1, 1, 1])
    }
}

impl TreeFile {
    /// The bytes of the file. It says nothing of items of 16 bytes.
    pub fn bytes(&self, alloc: Global) -> Result<Vec<u8>, Fail> {
        let numbers = [
            ("ways", self.ways),
            ("sets", self.sets),
            ("buffer", self.buffer),
            ("parking", self.parking),
            ("down", self.down),
            ("requests", self.requests),
            ("replies", self.replies),
            ("stack_base", self.stack_base),
            ("stack_bytes", self.stack_bytes),
        ];
        let mut text = format!(in alloc; "shape = \"{}\"\n", self.shape)?;
        for (key, number) in numbers {
            text.push_str(&format!(in alloc; "{key} = {number}\n")?)?;
        }
        if self.item_bytes != 16 {
            text.push_str(&format!(in alloc; "item_bytes = {}\n", self.item_bytes)?)?;
        }
        Ok(text.into_bytes())
    }
}

/// These words, the lowest byte of each first.
fn bytes_of(alloc: Global, words: &[u32]) -> Result<Vec<u8>, Fail> {
    let mut bytes = Vec::new(alloc);
    for word in words {
        bytes.extend_from_slice(&word.to_le_bytes())?;
    }
    Ok(bytes)
}

/// A segment with these words at its front, in at least so many bytes of memory.
pub fn segment(
    alloc: Global,
    vaddr: u32,
    flags: u32,
    words: &[u32],
    memory: u32,
) -> Result<Segment, Fail>
    ensures fits { IfOk result (λ segment. FitsMemory segment) }
    ensures short { IfOk result (λ segment. IsShort segment) }
{
    let bytes = bytes_of(alloc, words)?;
    let length = bytes.len();
    if length > 4096 {
        return Err(Fail::new("a segment of a test is short"));
    }
    Ok(Segment {
        header: 0,
        vaddr,
        flags,
        bytes,
        memsz: memory.max(length as u32),
    })
}

/// The segment of this code.
pub fn code_segment(alloc: Global, code: &[u32]) -> Result<Segment, Fail>
    ensures fits { IfOk result (λ segment. FitsMemory segment) }
    ensures short { IfOk result (λ segment. IsShort segment) }
{
    segment(alloc, CODE, EXECUTABLE, code, 0)
}

/// An image of these segments, which begins with the first word of the code.
#[tactic(auto, using(crate::proofs::Short::short_images))]
pub fn image_of(alloc: Global, segments: &[Segment]) -> Result<Vec<u8>, Fail>
    requires few { length segments.now ≤ 64 }
    requires fits { All FitsMemory segments.now }
    requires short { All IsShort segments.now }
{
    Ok(write_image(alloc, CODE, segments)?)
}

/// An image of this code, and of data with these words at its front and so many bytes of memory.
pub fn image(alloc: Global, code: &[u32], data: &[u32], memory: u32) -> Result<Vec<u8>, Fail> {
    let segments = [
        code_segment(alloc, code)?,
        segment(alloc, DATA, WRITABLE, data, memory)?,
    ];
    image_of(alloc, &segments)
}

/// Stores 7 at the front of the data, loads it back and exits with it.
pub fn store_and_load(alloc: Global) -> Result<Vec<u8>, Fail> {
    let code = [
        0x000202b7, // lui x5,0x20
        0x00700313, // addi x6,x0,7
        0x0062a023, // sw x6,0(x5)
        0x0002a383, // lw x7,0(x5)
        0x05d00893, // addi x17,x0,93
        0x00038513, // addi x10,x7,0
        0x00000073, // ecall
    ];
    image(alloc, &code, &[], 16)
}

/// The report of `store_and_load` after its eight turns.
pub const STORED_AND_LOADED: &[&str] = &[
    "ddm 1",
    "turns 8 retired 6 granted 0 busy 0",
    "hart 0 exit 7 pc 00010018 done 6",
    "regs 0 00000000 00030010 00000000 00000000 00020000 00000007 00000007 00000000 00000000 00000007 \
    00000001 00000000 00000000 00000000 00000000 00000000 0000005d 00000000 00000000 00000000 00000000 \
    00000000 00000000 00000000 00000000 00000000 00000000 00000000 00000000 00000000 00000000",
    "out 0 -",
    "bus 0 read 0 data 0 erase 0 exclusive 0 out 0 inject 0",
    "item 0 00010000 000202b7 00700313 0062a023 0002a383 leaf 0 way 0 E",
    "item 1 00010010 05d00893 00038513 00000073 00000000 leaf 0 way 1 E",
    "item 2 00020000 00000007 00000000 00000000 00000000 leaf 0 way 2 E",
    "item 3 00030000 00000000 00000000 00000000 00000000 leaf 0 way 3 E",
    "op 0 0.0.0 00010000 plain",
    "op 0 0.0.1 00010004 plain",
    "op 0 0.0.2 00010008 store 00020000 00000000 00000007",
    "op 0 0.0.3 0001000c load 00020000 00000007",
    "op 0 0.0.4 00010010 plain",
    "op 0 0.0.5 00010014 plain",
    "end",
];

/// Loads the word at the front of the data, which is 5, and asks to exit.
pub fn load_and_exit(alloc: Global) -> Result<Vec<u8>, Fail> {
    let code = [
        0x000202b7, // lui x5,0x20
        0x0002a383, // lw x7,0(x5)
        0x05d00893, // addi x17,x0,93
        0x00000073, // ecall
    ];
    image(alloc, &code, &[5], 16)
}

/// Loads the word at the front of the data, which is 5, and then the first word of the code.
pub fn load_two_words(alloc: Global) -> Result<Vec<u8>, Fail> {
    let code = [
        0x000202b7, // lui x5,0x20
        0x0002a383, // lw x7,0(x5)
        0x00010337, // lui x6,0x10
        0x00032403, // lw x8,0(x6)
    ];
    image(alloc, &code, &[5], 16)
}

/// Adds one to the word at the front of the data, a hundred times, and asks to exit.
pub fn add_to_one_word(alloc: Global) -> Result<Vec<u8>, Fail> {
    let code = [
        0x000202b7, // lui x5,0x20
        0x06400313, // addi x6,x0,100
        0x00100393, // addi x7,x0,1
        0x0072a42f, // amoadd.w x8,x7,(x5)
        0xfff30313, // addi x6,x6,-1
        0xfe031ce3, // bne x6,x0,-8
        0x05d00893, // addi x17,x0,93
        0x00000073, // ecall
    ];
    image(alloc, &code, &[], 16)
}

/// Hart 0 stores to the word at 0x20000 and then to the flag at 0x20010. Another hart reads the word, reads it once more, and then
/// the flag.
pub fn word_and_flag(alloc: Global) -> Result<Vec<u8>, Fail> {
    let code = [
        0x000202b7, // lui x5,0x20
        0x0002a383, // lw x7,0(x5)
        0x00050863, // beq x10,x0,16: hart 0 goes on with its stores
        0x0002a403, // lw x8,0(x5)
        0x0102a483, // lw x9,16(x5)
        0x0002a603, // lw x12,0(x5)
        0x00b2a023, // sw x11,0(x5)
        0x00b2a823, // sw x11,16(x5)
    ];
    image(alloc, &code, &[5], 32)
}

/// The file with other bytes at a place.
pub fn changed(alloc: Global, file: &[u8], place: usize, bytes: &[u8]) -> Result<Vec<u8>, Fail> {
    if place > file.len() || bytes.len() > file.len() - place {
        return Err(Fail::new("a change lies in the file"));
    }
    let mut file = file.to_vec(alloc)?;
    file[place..place + bytes.len()].copy_from_slice(bytes);
    Ok(file)
}

/// The text of these lines.
pub fn text_of(alloc: Global, lines: &[&str]) -> Result<Vec<u8>, Fail> {
    let mut text = Vec::new(alloc);
    for line in lines {
        text.extend_from_slice(line.as_bytes())?;
        text.push(b'\n')?;
    }
    Ok(text)
}

/// The schedule of these turns, so many times over.
pub fn schedule(alloc: Global, turns: &[&str], times: u32) -> Result<Vec<u8>, Fail> {
    let round = text_of(alloc, turns)?;
    let mut text = Vec::new(alloc);
    for number in 0..times {
        let _ = number;
        text.extend_from_slice(&round)?;
    }
    text.extend_from_slice(b"end\n")?;
    Ok(text)
}

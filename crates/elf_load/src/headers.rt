//! The program headers of a file.

ghost use Rattle.std.specs.Prelude.{◌≡◌, ℕ, ◌+◌, ◌<◌, ◌≤◌, All, AllPairs, IfOk, OnOk, length, false, map, None};
ghost use Rattle.elf_load.specs.DdmTypes.ItemTable.{IsItemSize};
ghost use Rattle.elf_load.specs.ElfFile.{code_bytes, code_refusal, has_memory, header_at, header_count, header_place};
ghost use Rattle.elf_load.specs.ElfFile.{header_refusal, header_span, headers_of, headers_refusal, items_met};
ghost use Rattle.elf_load.specs.ElfFile.{loaded_headers, meets};
ghost use Rattle.elf_load.specs.HeaderRule.{HasTable, IsLoadable};

use crate::fields::{half_at, word_in};
use crate::of_ddm_types::{NoMemory, Span, count_items};
use crate::refusal::ImageRefusal;
use std::alloc::Global;

/// A program header of the file: the words that are read of it, and its number.
#[derive(Clone, Copy, Debug, PartialEq, Eq)]
pub struct ProgramHeader {
    /// Counted from 0.
    pub number: u32,
    /// The type: 1 for a segment to load.
    pub kind: u32,
    /// Where in the file the segment's bytes begin.
    pub offset: u32,
    pub vaddr: u32,
    /// How many bytes the segment has in the file.
    pub filesz: u32,
    /// How many bytes it has in memory.
    pub memsz: u32,
    /// 1 executable, 2 writable, 4 readable.
    pub flags: u32,
}

/// The program header with this number.
fn header_at(file: &[u8], number: u32) -> ProgramHeader
    requires table { HasTable file.now }
    requires number { number < header_count file.now }
    ensures { result ≡ header_at file.now number }
{
    let place = word_in(file, 28) as usize + 32 * number as usize;
    ProgramHeader {
        number,
        kind: word_in(file, place),
        offset: word_in(file, place + 4),
        vaddr: word_in(file, place + 8),
        filesz: word_in(file, place + 16),
        memsz: word_in(file, place + 20),
        flags: word_in(file, place + 24),
    }
}

/// All program headers.
#[tactic(auto, using(crate::proofs::HeaderSteps::more_headers), unfolding(crate::specs::ElfFile::headers_of))]
pub fn headers_of(alloc: Global, file: &[u8]) -> Result<Vec<ProgramHeader>, NoMemory>
    requires { HasTable file.now }
    ensures { IfOk result (λ headers. headers.items ≡ headers_of file.now) }
{
    let mut headers = Vec::new(alloc);
    for number in 0..u32::from(half_at(file, 44)) {
        headers.push(header_at(file, number))?;
    }
    Ok(headers)
}

//! The rules for sizes, judged before bytes are copied.

ghost use Rattle.std.specs.Prelude.{◌≡◌, ◌⊎◌, ◌+◌, ◌^◌, ◌<◌, ◌≤◌, All, IfOk, IfErr, length, None, Some, map};
ghost use Rattle.elf_load.specs.DdmTypes.ItemTable.{IsItemSize};
ghost use Rattle.elf_load.specs.ElfFile.{code_bytes, code_bytes_of, code_refusal, header_span, items_met, sizes_refusal};

use crate::headers::ProgramHeader;
use crate::of_ddm_types::{MOST_ITEMS, NoMemory, Span, count_items};
use crate::refusal::{ImageRefusal, first_refusal, refused_if};
use std::alloc::Global;

/// The most bytes of executable segments.
const MOST_CODE: u64 = 0x10_0000;

fn code_bytes_of(header: &ProgramHeader) -> u64
    ensures bytes { result ≡ code_bytes_of header.now }
    ensures bound { result < 2 ^ 32 }
{
    if header.flags % 2 == 1 {
        u64::from(header.memsz)
    } else {
        0
    }
}

/// The bytes of executable segments.
#[tactic(auto, using(crate::proofs::HeaderSteps::more_code), unfolding(crate::specs::ElfFile::code_bytes))]
fn code_bytes(loaded: &[ProgramHeader]) -> u64
    requires { length loaded.now ≤ 64 }
    ensures { result ≡ code_bytes loaded.now }
{
    let mut bytes = 0;
    for header in loaded {
        bytes += code_bytes_of(header);
    }
    bytes
}

/// What the number of segments and their code are refused for.
#[tactic(auto, unfolding(crate::specs::ElfFile::code_refusal))]
fn code_refusal(loaded: &[ProgramHeader]) -> Option<ImageRefusal>
    requires { length loaded.now ≤ 64 }
    ensures { result ≡ code_refusal loaded.now }
{
    let bytes = code_bytes(loaded);
    first_refusal(&[
        refused_if(loaded.len() == 0, ImageRefusal::NoSegments),
        refused_if(bytes > MOST_CODE, ImageRefusal::TooMuchCode(bytes)),
    ])
}

fn header_span(header: &ProgramHeader) -> Span
    ensures { result ≡ header_span header.now }
{
    Span {
        start: header.vaddr,
        bytes: u64::from(header.memsz),
        writable: header.flags / 2 % 2 == 1,
    }
}

#[tactic(auto, using(crate::proofs::HeaderSteps::more_spans))]
fn header_spans(alloc: Global, loaded: &[ProgramHeader]) -> Result<Vec<Span>, NoMemory>
    ensures { IfOk result (λ spans. spans.items ≡ map header_span loaded.now) }
{
    let mut spans = Vec::new(alloc);
    for header in loaded {
        spans.push(header_span(header))?;
    }
    Ok(spans)
}

/// How many items of this many bytes the segments overlap.
#[tactic(auto, using(crate::proofs::HeaderSteps::spans_end), unfolding(crate::specs::ElfFile::items_met))]
fn items_met(alloc: Global, loaded: &[ProgramHeader], item_bytes: u32) -> Result<u64, NoMemory>
    requires size { IsItemSize item_bytes }
    requires ends { All (λ h. h.vaddr + h.memsz ≤ 2 ^ 32) loaded.now }
    ensures { IfOk result (λ count. count ≡ items_met item_bytes loaded.now) }
{
    let spans = header_spans(alloc, loaded)?;
    count_items(alloc, &spans, item_bytes)
}

/// What the segments are refused for together.
#[tactic(auto, unfolding(crate::specs::ElfFile::sizes_refusal, crate::specs::ElfFile::items_refusal))]
pub fn sizes_refusal(
    alloc: Global,
    loaded: &[ProgramHeader],
    item_bytes: u32,
) -> Result<Option<ImageRefusal>, NoMemory>
    requires size { IsItemSize item_bytes }
    requires few { length loaded.now ≤ 64 }
    requires ends { All (λ h. h.vaddr + h.memsz ≤ 2 ^ 32) loaded.now }
    ensures { IfOk result (λ refusal. refusal ≡ sizes_refusal item_bytes loaded.now) }
{
    if let Some(refusal) = code_refusal(loaded) {
        return Ok(Some(refusal));
    }
    let count = items_met(alloc, loaded, item_bytes)?;
    Ok(refused_if(
        count > u64::from(MOST_ITEMS),
        ImageRefusal::TooManyItems(count),
    ))
}

//! The rules for program headers.

ghost use Rattle.std.specs.Prelude.{◌≡◌, ◌+◌, [], find, filter};
ghost use Rattle.elf_load.specs.ElfFile.{bytes_outside, has_memory, header_refusal, headers_refusal, is_dynamic};
ghost use Rattle.elf_load.specs.ElfFile.{is_load, meets, overlap_with, wraps};

use crate::headers::ProgramHeader;
use crate::refusal::{ImageRefusal, first_refusal, refused_if};

/// The type of a segment to load.
const LOAD: u32 = 1;

/// The types of a dynamic image.
const DYNAMIC: u32 = 2;

const INTERP: u32 = 3;

/// The address behind the last one.
const MEMORY_END: u64 = 0x1_0000_0000;

fn is_load(header: &ProgramHeader) -> bool
    ensures { result ≡ is_load header.now }
{
    header.kind == LOAD
}

fn is_dynamic(header: &ProgramHeader) -> bool
    ensures { result ≡ is_dynamic header.now }
{
    header.kind == DYNAMIC || header.kind == INTERP
}

fn has_memory(header: &ProgramHeader) -> bool
    ensures { result ≡ has_memory header.now }
{
    header.kind == LOAD && header.memsz > 0
}

/// Whether the segment has bytes that the file of this length or its own memory has no place for.
fn bytes_outside(file_length: u64, header: &ProgramHeader) -> bool
    ensures { result ≡ bytes_outside file_length header.now }
{
    let end = u64::from(header.offset) + u64::from(header.filesz);
    header.memsz < header.filesz || header.filesz > 0 && file_length < end
}

fn memory_end(header: &ProgramHeader) -> u64
    ensures { result ≡ header.now.vaddr + header.now.memsz }
{
    u64::from(header.vaddr) + u64::from(header.memsz)
}

fn wraps(header: &ProgramHeader) -> bool
    ensures { result ≡ wraps header.now }
{
    memory_end(header) > MEMORY_END
}

/// Whether a byte of memory is in the segments of both.
fn meets(header: &ProgramHeader, earlier: &ProgramHeader) -> bool
    ensures { result ≡ meets header.now earlier.now }
{
    let end = memory_end(header);
    let earlier_end = memory_end(earlier);
    earlier.kind == LOAD
        && header.kind == LOAD
        && earlier.memsz > 0
        && header.memsz > 0
        && u64::from(earlier.vaddr) < end
        && u64::from(header.vaddr) < earlier_end
}

fn overlap_refusal(earlier: &[ProgramHeader], header: &ProgramHeader) -> Option<ImageRefusal>
    ensures { result ≡ overlap_with header.now (find (meets header.now) earlier.now) }
{
    for other in earlier {
        if meets(header, other) {
            return Some(ImageRefusal::SegmentsOverlap(other.number, header.number));
        }
    }
    None
}

/// What a program header is refused for behind the earlier ones.
#[tactic(auto, unfolding(crate::specs::ElfFile::header_refusal))]
fn header_refusal(
    file_length: u64,
    earlier: &[ProgramHeader],
    header: &ProgramHeader,
) -> Option<ImageRefusal>
    ensures { result ≡ header_refusal file_length earlier.now header.now }
{
    let loaded = is_load(header);
    let outside = bytes_outside(file_length, header);
    let wraps = wraps(header);
    first_refusal(&[
        refused_if(is_dynamic(header), ImageRefusal::Dynamic(header.number)),
        refused_if(
            loaded & outside,
            ImageRefusal::SegmentOutside(header.number),
        ),
        refused_if(loaded & wraps, ImageRefusal::AddressWraps(header.number)),
        overlap_refusal(earlier, header),
    ])
}

#[tactic(auto, using(crate::proofs::HeaderSteps::headers_search))]
/// What the program headers of a file of this length are refused for.
pub fn headers_refusal(file_length: u64, headers: &[ProgramHeader]) -> Option<ImageRefusal>
    ensures { result ≡ headers_refusal file_length [] headers.now }
{
    for (k, header) in headers.iter().enumerate() {
        if let Some(refusal) = header_refusal(file_length, &headers[..k], header) {
            return Some(refusal);
        }
    }
    None
}

/// Leaves those of segments that have memory.
pub fn keep_loaded(headers: &mut Vec<ProgramHeader>)
    ensures { headers.new.items ≡ filter has_memory headers.old.items }
{
    headers.retain(|header| has_memory(header));
}

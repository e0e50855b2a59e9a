//! The segments of a file.

ghost use Rattle.std.specs.Prelude.{◌≡◌, All, IfOk, length, take, drop};
ghost use Rattle.elf_load.specs.ElfFile.{segment_of, segments_of};
ghost use Rattle.elf_load.specs.HeaderRule.{IsLoadable};

use crate::headers::ProgramHeader;
use crate::image::Segment;
use crate::of_ddm_types::NoMemory;
use std::alloc::Global;

/// The file's bytes of a segment.
fn bytes_of(alloc: Global, file: &[u8], header: &ProgramHeader) -> Result<Vec<u8>, NoMemory>
    requires { IsLoadable (length file.now) header.now }
    ensures { IfOk result (λ bytes. bytes.items ≡ take header.now.filesz (drop header.now.offset file.now)) }
{
    if header.filesz == 0 {
        return Ok(Vec::new(alloc));
    }
    let start = header.offset as usize;
    let end = start + header.filesz as usize;
    Ok(Vec::from_slice(alloc, &file[start..end])?)
}

fn segment_of(alloc: Global, file: &[u8], header: &ProgramHeader) -> Result<Segment, NoMemory>
    requires { IsLoadable (length file.now) header.now }
    ensures { IfOk result (λ segment. segment ≡ segment_of file.now header.now) }
{
    Ok(Segment {
        header: header.number,
        vaddr: header.vaddr,
        flags: header.flags,
        bytes: bytes_of(alloc, file, header)?,
        memsz: header.memsz,
    })
}

/// The segments of these program headers.
#[tactic(auto, using(crate::proofs::HeaderSteps::more_segments), unfolding(crate::specs::ElfFile::segments_of))]
pub fn segments_of(
    alloc: Global,
    file: &[u8],
    loaded: &[ProgramHeader],
) -> Result<Vec<Segment>, NoMemory>
    requires { All (IsLoadable (length file.now)) loaded.now }
    ensures { IfOk result (λ segments. segments.items ≡ segments_of file.now loaded.now) }
{
    let mut segments = Vec::new(alloc);
    for header in loaded {
        segments.push(segment_of(alloc, file, header)?)?;
    }
    Ok(segments)
}

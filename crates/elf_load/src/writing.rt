//! An image is written as a file.

ghost use Rattle.std.specs.Prelude.{◌≡◌, ◌+◌, ◌*◌, ◌^◌, ◌<◌, ◌≤◌, ◌++◌, All, IfOk, OnOk, length};
ghost use Rattle.elf_load.specs.ImageRule.{FitsMemory};
ghost use Rattle.elf_load.specs.Written.{file_header, halves, program_header, program_headers, segment_bytes, words, written_image};

use crate::image::Segment;
use crate::of_ddm_types::NoMemory;
use std::alloc::Global;

/// The magic bytes, 32 bits, little-endian, version 1.
const IDENTITY: [u8; 16] = [0x7f, b'E', b'L', b'F', 1, 1, 1, 0, 0, 0, 0, 0, 0, 0, 0, 0];

/// The bytes of an ELF header, and of a program header.
const ELF_HEADER: u32 = 52;

const PROGRAM_HEADER: u32 = 32;

#[tactic(auto, using(crate::proofs::Pushes::halves_next, crate::proofs::Pushes::halves_done))]
fn push_halves(file: &mut Vec<u8>, numbers: &[u16]) -> Result<(), NoMemory>
    ensures { OnOk result (file.new.items ≡ file.old.items ++ halves numbers.now) }
{
    for half in numbers {
        file.extend_from_slice(&half.to_le_bytes())?;
    }
    Ok(())
}

#[tactic(auto, using(crate::proofs::Pushes::words_next, crate::proofs::Pushes::words_done))]
fn push_words(file: &mut Vec<u8>, numbers: &[u32]) -> Result<(), NoMemory>
    ensures { OnOk result (file.new.items ≡ file.old.items ++ words numbers.now) }
{
    for word in numbers {
        file.extend_from_slice(&word.to_le_bytes())?;
    }
    Ok(())
}

#[tactic(auto, using(crate::proofs::Pushes::file_header_is))]
fn push_file_header(file: &mut Vec<u8>, entry: u32, count: u16) -> Result<(), NoMemory>
    ensures { OnOk result (file.new.items ≡ file.old.items ++ file_header entry count) }
{
    file.extend_from_slice(&IDENTITY)?;
    push_halves(file, &[2, 243])?;
    push_words(file, &[1, entry, 52, 0, 0])?;
    push_halves(file, &[52, 32, count, 0, 0, 0])
}

#[tactic(auto, unfolding(crate::specs::Written::program_header))]
fn push_program_header(file: &mut Vec<u8>, offset: u32, segment: &Segment) -> Result<(), NoMemory>
    requires { length segment.now.bytes ≤ 4194304 }
    ensures { OnOk result (file.new.items ≡ file.old.items ++ program_header offset segment.now) }
{
    let length = segment.bytes.len() as u32;
    push_words(
        file,
        &[
            1,
            offset,
            segment.vaddr,
            segment.vaddr,
            length,
            segment.memsz,
            segment.flags,
            1,
        ],
    )
}

/// Where the bytes of a segment end that begin at this offset.
fn end_of(offset: u32, segment: &Segment) -> u32
    requires { offset + length segment.now.bytes ≤ 4194304 }
    ensures { result ≡ offset + length segment.now.bytes }
{
    offset + segment.bytes.len() as u32
}

#[tactic(auto, using(crate::proofs::Pushes::headers_next, crate::proofs::Pushes::headers_done, crate::proofs::Pushes::bytes_next))]
fn push_program_headers(
    file: &mut Vec<u8>,
    first: u32,
    segments: &[Segment],
) -> Result<(), NoMemory>
    requires { first + length (segment_bytes segments.now) ≤ 4194304 }
    ensures { OnOk result (file.new.items ≡ file.old.items ++ program_headers first segments.now) }
{
    let mut offset = first;
    for segment in segments {
        push_program_header(file, offset, segment)?;
        offset = end_of(offset, segment);
    }
    Ok(())
}

fn push_bytes(file: &mut Vec<u8>, segment: &Segment) -> Result<(), NoMemory>
    ensures { OnOk result (file.new.items ≡ file.old.items ++ segment.now.bytes) }
{
    file.extend_from_slice(&segment.bytes)?;
    Ok(())
}

#[tactic(auto, using(crate::proofs::Pushes::segments_next, crate::proofs::Pushes::segments_done))]
fn push_segment_bytes(file: &mut Vec<u8>, segments: &[Segment]) -> Result<(), NoMemory>
    ensures { OnOk result (file.new.items ≡ file.old.items ++ segment_bytes segments.now) }
{
    for segment in segments {
        push_bytes(file, segment)?;
    }
    Ok(())
}

/// The bytes of an ELF file with this entry and a program header for each of these segments, whose own header
/// numbers it doesn't read.
#[tactic(auto, using(crate::proofs::Pushes::room_for_bytes), unfolding(crate::specs::Written::written_image))]
pub fn write_image(alloc: Global, entry: u32, segments: &[Segment]) -> Result<Vec<u8>, NoMemory>
    requires few { length segments.now ≤ 64 }
    requires fits { All FitsMemory segments.now }
    requires short { length (written_image entry segments.now) ≤ 4194304 }
    ensures { IfOk result (λ file. file.items ≡ written_image entry segments.now) }
{
    let mut file = Vec::new(alloc);
    push_file_header(&mut file, entry, segments.len() as u16)?;
    let first = ELF_HEADER + PROGRAM_HEADER * segments.len() as u32;
    push_program_headers(&mut file, first, segments)?;
    push_segment_bytes(&mut file, segments)?;
    Ok(file)
}

//! Tests of images.

ghost use Rattle.std.specs.Prelude.{◌≡◌, ◌≤◌, All, IfOk, length};
ghost use Rattle.elf_load.specs.ImageRule.{FitsMemory};
ghost use Rattle.elf_load.specs.Written.{segment_bytes};

use crate::of_ddm_types::NoMemory;
use elf_load::*;
use std::alloc::Global;
use std::test::Fail;

/// Seven instructions: store 7 at 0x20000, load it back, exit with it.
const CODE: [u8; 28] = [
    0xb7, 0x02, 0x02, 0x00, 0x13, 0x03, 0x70, 0x00, 0x23, 0xa0, 0x62, 0x00, 0x83, 0xa3, 0x02, 0x00,
    0x93, 0x08, 0xd0, 0x05, 0x13, 0x85, 0x03, 0x00, 0x73, 0x00, 0x00, 0x00,
];

/// The code at 0x10000, and 16 bytes of memory at 0x20000.
const SMALL: [u8; 144] = [
    0x7f, 0x45, 0x4c, 0x46, 1, 1, 1, 0, 0, 0, 0, 0, 0, 0, 0, 0, // identity
    2, 0, 243, 0, 1, 0, 0, 0, 0, 0, 1, 0, 52, 0, 0, 0, 0, 0, 0, 0, 0, 0, 0, 0, // to the flags
    52, 0, 32, 0, 2, 0, 0, 0, 0, 0, 0, 0, // sizes and counts
    1, 0, 0, 0, 116, 0, 0, 0, 0, 0, 1, 0, 0, 0, 1, 0, 28, 0, 0, 0, 28, 0, 0, 0, 5, 0, 0, 0, 1, 0,
    0, 0, // the code
    1, 0, 0, 0, 144, 0, 0, 0, 0, 0, 2, 0, 0, 0, 2, 0, 0, 0, 0, 0, 16, 0, 0, 0, 6, 0, 0, 0, 1, 0, 0,
    0, // the data
    0xb7, 0x02, 0x02, 0x00, 0x13, 0x03, 0x70, 0x00, 0x23, 0xa0, 0x62, 0x00, 0x83, 0xa3, 0x02, 0x00,
    0x93, 0x08, 0xd0, 0x05, 0x13, 0x85, 0x03, 0x00, 0x73, 0x00, 0x00, 0x00,
];

fn code_segment(alloc: Global) -> Result<Segment, NoMemory>
    ensures fits { IfOk result (λ s. length s.bytes ≤ s.memsz) }
    ensures short { IfOk result (λ s. length s.bytes ≡ 28) }
{
    Ok(Segment {
        header: 0,
        vaddr: 0x10000,
        flags: 5,
        bytes: Vec::from_slice(alloc, &CODE)?,
        memsz: 28,
    })
}

#[test]
fn small_image(rt: HostRuntime) -> Result<(), Fail> {
    let image = load(rt.alloc(), &SMALL, 16)?;
    assert_eq!(rt; image.entry, 0x10000);
    assert_eq!(rt; image.segments.len(), 2);
    assert_eq!(rt; image.code.word_at(0x10000), Some(0x000202b7));
    assert_eq!(rt; image.code.word_at(0x10018), Some(0x00000073));
    assert_eq!(rt; image.code.word_at(0x1001c), None);
    assert_eq!(rt; image.code.word_at(0x20000), None);
    for segment in &image.segments {
        if segment.header == 1 {
            assert_eq!(rt; segment.vaddr, 0x20000);
            assert_eq!(rt; segment.flags, 6);
            assert_eq!(rt; segment.memsz, 16);
            assert!(rt; segment.bytes.is_empty());
        } else {
            assert_eq!(rt; segment.header, 0);
            assert_eq!(rt; segment.bytes.as_slice(), CODE.as_slice());
        }
    }
    Ok(())
}

/// The segments of the small file.
fn small_segments(alloc: Global) -> Result<Vec<Segment>, NoMemory>
    ensures few { IfOk result (λ segments. length segments.items ≡ 2) }
    ensures fits { IfOk result (λ segments. All FitsMemory segments.items) }
    ensures short { IfOk result (λ segments. length (segment_bytes segments.items) ≡ 28) }
{
    let data = Segment {
        header: 1,
        vaddr: 0x20000,
        flags: 6,
        bytes: Vec::new(alloc),
        memsz: 16,
    };
    let mut segments = Vec::new(alloc);
    segments.push(code_segment(alloc)?)?;
    segments.push(data)?;
    Ok(segments)
}

#[tactic(auto, using(elf_load::proofs::Pushes::room_for_bytes))]
fn written(alloc: Global) -> Result<Vec<u8>, NoMemory> {
    let segments = small_segments(alloc)?;
    write_image(alloc, 0x10000, &segments)
}

#[test]
fn small_file_written(rt: HostRuntime) -> Result<(), Fail> {
    let file = written(rt.alloc())?;
    assert_eq!(rt; file.as_slice(), SMALL.as_slice());
    Ok(())
}

//! What an image is.

use crate::of_ddm_types::Code;
use std::marker::Model;

/// A segment of memory: the bytes that the file has of it, followed by zeros up to `memsz`.
#[derive(Drop)]
pub struct Segment {
    /// The number of its program header.
    pub header: u32,
    /// The address of its first byte.
    pub vaddr: u32,
    /// 1 executable, 2 writable, 4 readable; other bits mean nothing.
    pub flags: u32,
    pub bytes: Vec<u8>,
    pub memsz: u32,
}

impl Model for Segment {
    ghost use Rattle.tree_model.specs.Start.Sources.{SegmentValue};

    ghost Value = { SegmentValue };

    ghost view = { λ s. record { header = s.header; vaddr = s.vaddr; flags = s.flags; bytes = s.bytes.items; memsz = s.memsz } };
}

/// What a program starts from: its memory, its code and the address of its first instruction.
#[derive(Drop)]
pub struct Image {
    pub entry: u32,
    pub segments: Vec<Segment>,
    pub code: Code,
}

impl Model for Image {
    ghost use Rattle.tree_model.specs.Start.Sources.{ImageValue};
    ghost use Rattle.elf_load.specs.ImageRule.{IsImage};

    ghost Value = { ImageValue };

    ghost view = { λ i. record { entry = i.entry; segments = i.segments.items } };

    ghost invariant = { λ i. IsImage (record { entry = i.entry; segments = i.segments.items }) i.code };
}

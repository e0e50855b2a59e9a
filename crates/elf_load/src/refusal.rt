//! Why a file isn't loaded.

ghost use Rattle.std.specs.Prelude.{◌≡◌};
ghost use Rattle.elf_load.specs.declared.refusal.ImageRefusal.TheVariants.{NoMemory};
ghost use Rattle.elf_load.specs.ElfFile.{first_refusal, refused_if};

use thiserror::Error;

/// Why a file isn't loaded. Header numbers count the file's program headers from 0.
#[derive(Debug, PartialEq, Eq, Clone, Copy, Error)]
pub enum ImageRefusal {
    /// More than 4 MiB.
    #[error("the file is too long")]
    TooLong,
    #[error("the file is not an ELF file")]
    NotElf,
    /// Not 32 bits, or not little-endian.
    #[error("the class or the byte order of the ELF file is wrong")]
    WrongClass,
    #[error("the ELF file is not an executable")]
    NotExecutable,
    #[error("the machine of the ELF file is not RISC-V")]
    WrongMachine,
    #[error("the image is marked for compressed instructions")]
    Compressed,
    #[error("the image is marked for hardware floats")]
    HardFloat,
    #[error("the image is marked for the embedded base set")]
    Embedded,
    /// This many program headers.
    #[error("there are too many program headers")]
    TooManyHeaders(u32),
    /// The program header isn't in the file, or, for number 0, headers don't have 32 bytes.
    #[error("a program header is not in the file")]
    HeaderOutside(u32),
    /// The program header asks for a dynamic linker.
    #[error("the image is dynamic")]
    Dynamic(u32),
    /// The segment's bytes aren't in the file, or are more than its memory.
    #[error("the bytes of a segment are not in the file")]
    SegmentOutside(u32),
    #[error("a segment reaches past the last address")]
    AddressWraps(u32),
    /// The earlier header, then the one that meets it.
    #[error("two segments overlap")]
    SegmentsOverlap(u32, u32),
    #[error("there is no segment with memory")]
    NoSegments,
    /// This many bytes in executable segments.
    #[error("there is too much code")]
    TooMuchCode(u64),
    /// This many items that segments overlap.
    #[error("there are too many items")]
    TooManyItems(u64),
    /// The entry isn't an address of the code.
    #[error("the entry is not an address of the code")]
    BadEntry(u32),
    #[error("no memory")]
    NoMemory,
}

impl From<crate::of_ddm_types::NoMemory> for ImageRefusal {
    ghost from_gives = { λ _ refusal. refusal ≡ NoMemory };

    fn from(_: crate::of_ddm_types::NoMemory) -> Self {
        ImageRefusal::NoMemory
    }
}

/// The refusal, where there is a cause for it.
pub fn refused_if(refused: bool, refusal: ImageRefusal) -> Option<ImageRefusal>
    ensures { result ≡ refused_if refused refusal }
{
    if refused { Some(refusal) } else { None }
}

/// The first of several.
pub fn first_refusal(refusals: &[Option<ImageRefusal>]) -> Option<ImageRefusal>
    ensures { result ≡ first_refusal refusals.now }
{
    for refusal in refusals {
        if let Some(refusal) = refusal {
            return Some(*refusal);
        }
    }
    None
}

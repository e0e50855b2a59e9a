//! A file is loaded as an image.

ghost use Rattle.std.specs.Prelude.{◌≡◌, ◌⊎◌, ℕ, IfOk, IfErr, Ok, Err};
ghost use Rattle.elf_load.specs.declared.refusal.ImageRefusal.TheVariants.{NoMemory};
ghost use Rattle.elf_load.specs.ElfFile.{image_in, image_of, judged_entry};
ghost use Rattle.elf_load.specs.HeaderRule.{IsRead};
ghost use Rattle.elf_load.specs.ImageRule.{IsCoded, image_value};

use crate::code::code_of;
use crate::fields::word_in;
use crate::file_rules::file_refusal;
use crate::header_rules::{headers_refusal, keep_loaded};
use crate::headers::{ProgramHeader, headers_of};
use crate::image::{Image, Segment};
use crate::of_ddm_types::Code;
use crate::refusal::ImageRefusal;
use crate::segments::segments_of;
use crate::sizes::sizes_refusal;
use std::alloc::Global;

/// The program headers of the image's segments.
#[tactic(auto, using(crate::proofs::Judged::has_table, crate::proofs::Judged::file_refused, crate::proofs::Judged::headers_refused))]
fn read_headers(alloc: Global, file: &[u8]) -> Result<Vec<ProgramHeader>, ImageRefusal>
    ensures read { IfOk result (λ loaded. IsRead file.now loaded.items) }
    ensures refused { IfErr result
        (λ refusal. (refusal ≡ NoMemory) ⊎ ((item_bytes : ℕ) → image_of item_bytes file.now ≡ Err refusal)) }
{
    match file_refusal(file) {
        Some(refusal) => return Err(refusal),
        None => {}
    }
    let mut headers = headers_of(alloc, file)?;
    match headers_refusal(file.len() as u64, &headers) {
        Some(refusal) => return Err(refusal),
        None => {}
    }
    keep_loaded(&mut headers);
    Ok(headers)
}

/// The image of these segments and their code.
#[tactic(auto, using(crate::proofs::Judged::entry_bad, crate::proofs::Judged::entry_good))]
fn image_with(entry: u32, segments: Vec<Segment>, code: Code) -> Result<Image, ImageRefusal>
    requires { IsCoded entry segments.items code }
    ensures image { IfOk result (λ image. judged_entry (image_value entry segments.items) ≡ Ok image) }
    ensures refused { IfErr result (λ refusal. judged_entry (image_value entry segments.items) ≡ Err refusal) }
{
    match code.word_at(entry) {
        None => Err(ImageRefusal::BadEntry(entry)),
        Some(_) => Ok(Image {
            entry,
            segments,
            code,
        }),
    }
}

/// The image of the segments of these program headers.
fn image_in(alloc: Global, file: &[u8], loaded: &[ProgramHeader]) -> Result<Image, ImageRefusal>
    requires { IsRead file.now loaded.now }
    ensures image { IfOk result (λ image. judged_entry (image_in file.now) ≡ Ok image) }
    ensures refused { IfErr result
        (λ refusal. (refusal ≡ NoMemory) ⊎ (judged_entry (image_in file.now) ≡ Err refusal)) }
{
    let segments = segments_of(alloc, file, loaded)?;
    let code = code_of(alloc, &segments)?;
    image_with(word_in(file, 24), segments, code)
}

/// Reads the bytes of an ELF file as an image for items of 16 or 64 bytes.
pub fn load(alloc: Global, bytes: &[u8], item_bytes: u32) -> Result<Image, ImageRefusal>
    requires { (item_bytes ≡ 16) ⊎ (item_bytes ≡ 64) }
    ensures image { IfOk result (λ image. image_of item_bytes bytes.now ≡ Ok image) }
    ensures refused { IfErr result (λ refusal. (refusal ≡ NoMemory) ⊎ (image_of item_bytes bytes.now ≡ Err refusal)) }
{
    let loaded = read_headers(alloc, bytes)?;
    match sizes_refusal(alloc, &loaded, item_bytes)? {
        Some(refusal) => Err(refusal),
        None => image_in(alloc, bytes, &loaded),
    }
}

//! The code of an image.

ghost use Rattle.std.specs.Prelude.{◌≡◌, ◌&&◌, nat_lt, ◌+◌, ◌*◌, ◌^◌, ◌<◌, ◌≤◌, ℕ, All, AllPairs, IfOk, [], ◌∷◌};
ghost use Rattle.std.specs.Prelude.{slice_index_or, vec_capacity};
ghost use Rattle.tree_model.specs.Start.Memory.{byte_at, memory_word, start_code};
ghost use Rattle.tree_model.specs.Start.Sources.{is_executable};
ghost use Rattle.elf_load.specs.ImageRule.{AreApart, EndsInside, HasMemory};
ghost use Rattle.tree_model.specs.Start.Memory.{first_word};
ghost use Rattle.elf_load.specs.CodeOf.{ArePartsOf, IsPartOf, file_word_count, first_offset, first_words, segment_words, word_count};

use crate::fields::word_in;
use crate::image::Segment;
use crate::of_ddm_types::{Code, CodePart, NoMemory};
use std::alloc::Global;

fn byte_or_zero(bytes: &[u8], at: usize) -> u8
    ensures { result ≡ slice_index_or bytes.now at 0 }
{
    if at < bytes.len() { bytes[at] } else { 0 }
}

/// A byte of the segment's memory.
#[tactic(auto, using(crate::proofs::SegmentBytes::own_byte))]
fn byte_at(segment: &Segment, address: u64) -> u8
    requires above { segment.now.vaddr ≤ address }
    requires below { address < segment.now.vaddr + segment.now.memsz }
    ensures { result ≡ byte_at (segment.now ∷ []) address }
{
    let offset = address - u64::from(segment.vaddr);
    byte_or_zero(&segment.bytes, offset as usize)
}

/// A word of the segment's memory: it is read as one where the file has all of its bytes.
#[tactic(auto, unfolding(tree_model::specs::Start::Memory::memory_word))]
pub fn segment_word(segment: &Segment, address: u64) -> u32
    requires inside { address ≤ 2 ^ 33 }
    requires above { segment.now.vaddr ≤ address }
    requires below { address + 4 ≤ segment.now.vaddr + segment.now.memsz }
    ensures { result ≡ memory_word (segment.now ∷ []) address }
{
    let offset = (address - u64::from(segment.vaddr)) as usize;
    if offset + 4 <= segment.bytes.len() {
        return word_in(&segment.bytes, offset);
    }
    u32::from_le_bytes([
        byte_at(segment, address),
        byte_at(segment, address + 1),
        byte_at(segment, address + 2),
        byte_at(segment, address + 3),
    ])
}

/// The number of the first word that lies in the segment.
fn first_word(segment: &Segment) -> u64
    ensures { result ≡ first_word segment.now }
{
    (u64::from(segment.vaddr) + 3) / 4
}

/// How many words lie in the segment.
fn word_count(segment: &Segment) -> u64
    ensures { result ≡ word_count segment.now }
{
    let past = (u64::from(segment.vaddr) + u64::from(segment.memsz)) / 4;
    past.saturating_sub(first_word(segment))
}

/// Whether the segment gives a word to the code.
fn is_code(segment: &Segment) -> bool
    ensures { result ≡ (is_executable segment.now && nat_lt 0 (word_count segment.now)) }
{
    segment.flags % 2 == 1 && word_count(segment) > 0
}

/// How many bytes of the segment are before its first word.
fn first_offset(segment: &Segment) -> u64
    ensures { result ≡ first_offset segment.now }
{
    let start = u64::from(segment.vaddr);
    4 * first_word(segment) - start
}

/// How many words that lie in the segment have all of their bytes in the file: they are the first ones.
fn file_word_count(segment: &Segment) -> u64
    ensures { result ≡ file_word_count segment.now }
{
    let bytes = (segment.bytes.len() as u64).saturating_sub(first_offset(segment));
    word_count(segment).min(bytes / 4)
}

/// The words that have all of their bytes in the file, with room for the others.
#[tactic(auto, using(crate::proofs::SegmentBytes::file_word, crate::proofs::SegmentBytes::more_words))]
fn file_words(alloc: Global, segment: &Segment) -> Result<Vec<u32>, NoMemory>
    ensures words { IfOk result (λ words. words.items ≡ first_words segment.now (file_word_count segment.now)) }
    ensures room { IfOk result (λ words. word_count segment.now ≤ vec_capacity words) }
{
    let bytes: &[u8] = &segment.bytes;
    let first = first_offset(segment) as usize;
    let count = file_word_count(segment) as usize;
    let mut words = Vec::with_capacity(alloc, word_count(segment) as usize)?;
    for place in 0..count {
        words.push_reserved(word_in(bytes, first + 4 * place));
    }
    Ok(words)
}

/// The words that lie in the segment.
#[tactic(auto, using(crate::proofs::SegmentBytes::more_words))]
fn segment_words(alloc: Global, segment: &Segment) -> Result<Vec<u32>, NoMemory>
    requires { EndsInside segment.now }
    ensures { IfOk result (λ words. words.items ≡ segment_words segment.now) }
{
    let first = first_word(segment);
    let mut words = file_words(alloc, segment)?;
    for place in file_word_count(segment)..word_count(segment) {
        words.push(segment_word(segment, 4 * (first + place)))?;
    }
    Ok(words)
}

/// The code of the segment, as a part, which has no word where the segment isn't executable or too short.
#[tactic(auto, using(crate::proofs::CodeParts::blank_part, crate::proofs::CodeParts::full_part))]
fn part_of(alloc: Global, segment: &Segment) -> Result<CodePart, NoMemory>
    requires { EndsInside segment.now }
    ensures { IfOk result (IsPartOf segment.now) }
{
    if !is_code(segment) {
        return Ok(CodePart {
            start: 0,
            words: Vec::new(alloc),
        });
    }
    Ok(CodePart {
        start: (4 * first_word(segment)) as u32,
        words: segment_words(alloc, segment)?,
    })
}

/// The code of each segment.
#[tactic(auto, using(crate::proofs::CodeParts::more_parts))]
fn parts_of(alloc: Global, segments: &[Segment]) -> Result<Vec<CodePart>, NoMemory>
    requires { All EndsInside segments.now }
    ensures { IfOk result (λ parts. ArePartsOf segments.now parts.items) }
{
    let mut parts = Vec::new(alloc);
    for segment in segments {
        parts.push(part_of(alloc, segment)?)?;
    }
    Ok(parts)
}

/// The code of segments.
#[tactic(auto, using(crate::proofs::CodeParts::parts_apart))]
pub fn code_of(alloc: Global, segments: &[Segment]) -> Result<Code, NoMemory>
    requires ends { All EndsInside segments.now }
    requires apart { AllPairs AreApart segments.now }
    requires full { All HasMemory segments.now }
    ensures { IfOk result
        (λ code. (entry : ℕ) → code ≡ start_code (record { entry = entry; segments = segments.now })) }
{
    Code::from_parts(alloc, parts_of(alloc, segments)?)
}
